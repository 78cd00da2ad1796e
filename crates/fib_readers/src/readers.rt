//! A forwarding table with a writer and readers: no reader waits, and each finds the table that was published last.
ghost use Rattle.std.specs.Prelude.{◌≡◌, ◌<◌, ◌^◌, [], IfOk, OnOk, OnErr, MatchResult, length, map};
ghost use Rattle.std.specs.Arc.{arc_value};
ghost use Rattle.rt_rib.specs.LookUp.{look_up};
ghost use Rattle.fib_readers.specs.Readers.{BeginWith, EndIn};
ghost use Rattle.fib_readers.specs.inside.Published.{IsPublished};

use crossbeam_utils::rule::{Outcome, Protocol};
use left_right::Absorb;
use left_right::reader::{Reader, Reading};
use left_right::writer::Writer;
use rt_cidr::Addr;
use rt_fib::Fib;
use rt_rib::{Refused, Route};
use std::alloc::{AllocError, Global};
use std::fmt;
use std::marker::Model;
use std::sync::{Arc, Wait};

/// A forwarding table that readers can find. The writer and its readers own it together: the last of them frees it.
#[derive(Drop)]
pub(crate) struct Shown {
    pub(crate) fib: Arc<Fib<Global>, Global>,
}

/// A table that is published replaces the previous one.
impl Absorb<Shown> for Shown {
    type State = [Route; 0];

    ghost state = { λ shown. arc_value shown.fib };

    ghost applied = { λ _ next. arc_value next.fib };

    fn absorb_first(&mut self, next: &Shown, _other: &Shown) -> Result<(), AllocError> {
        self.fib = Arc::try_clone(&next.fib)?;
        Ok(())
    }
}

/// The invariant on what is shown. What a writer or reader knows is the list of tables that it has seen published; no
/// value of it is ever made.
pub(crate) struct Publishes;

impl Protocol<Shown, [[Route; 0]; 0]> for Publishes {
    ghost holds = { λ shown views. IsPublished (arc_value shown.fib) views };

    ghost first = { [] };
}

/// After entering or publishing, one has seen all that was published until then, and the table shown is the last of it.
pub(crate) struct Sees;

impl Outcome<Shown, [[Route; 0]; 0]> for Sees {
    ghost then = { λ seen _ shown published. BeginWith published seen × EndIn published (arc_value shown.fib) };
}

/// The writer of a forwarding table that readers query meanwhile. Contracts see the table that readers find now, and
/// the tables that the writer has seen published. It stays on the thread that made it, and isn't dropped, but ended by
/// `end`.
pub struct FibWriter {
    writer: Writer<Shown, Shown, [[Route; 0]; 0], Publishes, Global>,
}

impl Model for FibWriter {
    ghost use Rattle.std.specs.Arc.{arc_value};
    ghost use Rattle.fib_readers.specs.Readers.{Found};

    ghost Value = { Found };

    ghost view = { λ w. record { table = arc_value w.writer.desk.shown.value.fib; published = w.writer.desk.place.me.0.client } };
}

/// A reader that reads nothing now; it may be sent to another thread. Contracts see the tables that it has seen
/// published.
#[derive(Drop)]
pub struct FibReader {
    reader: Reader<Shown, [[Route; 0]; 0], Publishes, Global>,
}

impl Model for FibReader {
    ghost use Rattle.std.specs.Prelude.{List};
    ghost use Rattle.rt_rib.specs.declared.routes.Route.{Route};

    ghost Value = { List (List Route) };

    ghost view = { λ r. r.reader.place.me.0.client };
}

/// A reader with the table that it found, which stays the same until the reader leaves it. If the writer publishes
/// twice more, it waits for this reader, so it shouldn't be kept for long.
pub struct FibReadGuard {
    reading: Reading<Shown, [[Route; 0]; 0], Publishes, Global>,
}

impl Model for FibReadGuard {
    ghost use Rattle.std.specs.Arc.{arc_value};
    ghost use Rattle.fib_readers.specs.Readers.{Found};

    ghost Value = { Found };

    ghost view = { λ r. record { table = arc_value r.reading.part.value.fib; published = r.reading.place.me.0.client } };
}

/// Shows no table, since one may be in use.
impl fmt::Debug for FibWriter {
    fn fmt<W: fmt::Write>(&self, f: &mut fmt::Formatter<W>) -> fmt::Result {
        f.debug_struct("FibWriter").finish_non_exhaustive()
    }
}

impl FibWriter {
    /// Returns the writer of this forwarding table, with room for `readers` readers at once. Error M1 (`Refused`) if
    /// memory runs out.
    pub fn new(alloc: Global, fib: Fib<Global>, readers: usize) -> Result<FibWriter, Refused>
        requires { (0 < readers) × (readers < 2 ^ 32) }
        ensures table { IfOk result (λ writer. writer.table ≡ fib) }
        ensures unseen { IfOk result (λ writer. writer.published ≡ []) }
    {
        let first = Shown {
            fib: Arc::new(alloc, fib)?,
        };
        let second = Shown {
            fib: Arc::try_clone(&first.fib)?,
        };
        let writer = Writer::new(alloc, first, second, readers)?;
        Ok(FibWriter { writer })
    }

    /// Returns another reader, which has seen nothing yet. Error M1 (`Refused`) if each place for a reader is in use.
    pub fn reader(&self) -> Result<FibReader, Refused>
        ensures { IfOk result (λ reader. reader ≡ []) }
    {
        Ok(FibReader {
            reader: self.writer.factory().reader()?,
        })
    }

    /// Publishes this forwarding table in a single step: every reader that enters from then on finds it. Waits for
    /// readers that have been reading since before the previous call. Error M1 (`Refused`) if memory runs out; readers
    /// then find what they found before.
    pub fn publish<R: Wait>(
        self,
        rt: &R,
        alloc: Global,
        fib: Fib<Global>,
    ) -> (FibWriter, Result<(), Refused>)
        ensures ok { OnOk result.1 (result.0.table ≡ fib) }
        ensures seen { OnOk result.1 (BeginWith result.0.published self.published × EndIn result.0.published result.0.table) }
        ensures err { OnErr result.1 (result.0 ≡ self) }
    {
        let Self { mut writer } = self;
        let Ok(fib) = Arc::new(alloc, fib) else {
            return (FibWriter { writer }, Err(Refused));
        };
        if writer.append(Shown { fib }).is_err() {
            return (FibWriter { writer }, Err(Refused));
        }
        let (writer, done) = writer.publish_as::<Sees, R>(rt);
        match done {
            Ok(()) => (FibWriter { writer }, Ok(())),
            Err(AllocError) => (FibWriter { writer }, Err(Refused)),
        }
    }

    /// Waits for readers that are reading. They find nothing from then on.
    pub fn end<R: Wait>(self, rt: &R) {
        let Self { writer } = self;
        drop(writer.take(rt));
    }
}

/// Shows no table, since it has none now.
impl fmt::Debug for FibReader {
    fn fmt<W: fmt::Write>(&self, f: &mut fmt::Formatter<W>) -> fmt::Result {
        f.debug_struct("FibReader").finish_non_exhaustive()
    }
}

impl FibReader {
    /// Returns the reader with the table that was published last, without waiting for anybody. The table is the last of
    /// those that were published, and these begin with those that this reader has seen. If the writer has ended,
    /// returns the reader as the error.
    pub fn enter(self) -> Result<FibReadGuard, FibReader>
        ensures { MatchResult result
            (λ reading. BeginWith reading.published self × EndIn reading.published reading.table)
            (λ reader. reader ≡ self) }
    {
        let Self { reader } = self;
        match reader.enter_as::<Sees>() {
            Ok(reading) => Ok(FibReadGuard { reading }),
            Err(reader) => Err(FibReader { reader }),
        }
    }
}

/// Shows nothing of its table.
impl fmt::Debug for FibReadGuard {
    fn fmt<W: fmt::Write>(&self, f: &mut fmt::Formatter<W>) -> fmt::Result {
        f.debug_struct("FibReadGuard").finish_non_exhaustive()
    }
}

impl FibReadGuard {
    /// Returns the answer to a look-up of the address in the table that was found.
    pub fn look_up(&self, addr: Addr) -> Option<Route>
        ensures { result ≡ look_up addr self.now.table }
    {
        self.reading.get().fib.look_up(addr)
    }

    /// Replaces each answer by the look-up of the address with the same index, as `Fib::look_up_each` does.
    pub fn look_up_each(&self, addresses: &[Addr], answers: &mut [Option<Route>])
        requires { length answers.old ≡ length addresses.now }
        ensures { answers.new ≡ map (λ addr. look_up addr self.now.table) addresses.now }
    {
        self.reading.get().fib.look_up_each(addresses, answers);
    }

    /// Leaves the table, and returns the reader, which has seen what was published.
    pub fn leave(self) -> FibReader
        ensures { result ≡ self.published }
    {
        let Self { reading } = self;
        FibReader {
            reader: reading.leave(),
        }
    }
}
