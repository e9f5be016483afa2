// The traits of the outside.
ghost use Rattle.std.specs.Prelude.{◌≡◌, ◌<◌, ◌≤◌, ℕ, List, length, Option, IfOk, Ok};
ghost use Rattle.std.specs.Io.{ReadsAtMost};
ghost use Rattle.std.specs.Io.KnownBytes.{ReadConsumes, WriteAppends};
ghost use Rattle.faults.specs.Faults.{FailsWithCause, Rose};

/// A read or a write that failed.
#[derive(Clone, Copy, Debug, PartialEq, Eq)]
pub struct Failed;

/// What a trace is read from.
pub trait Source {
    /// The bytes that are left, where it tells them.
    ghost left: { Self → Option (List ℕ) };

    /// How often a read has failed. The count never falls.
    ghost faults: { Self → ℕ };

    /// Gives the next bytes, as many as it likes of those that fit into `out`. `Ok(0)` is the end of the input.
    /// It answers `Failed` only where the count of faults rose.
    fn read(&mut self, out: &mut [u8]) -> Result<usize, Failed>
        requires { 0 < length out.old }
        ensures bound { ReadsAtMost result out.new }
        ensures bytes { ReadConsumes (left self.old) (left self.new) result out.new }
        ensures cause { FailsWithCause (faults self.old) (faults self.new) result };
}

/// What replies are written to.
pub trait Sink {
    /// The bytes that it has taken, where it tells them.
    ghost taken: { Self → Option (List ℕ) };

    /// How often a write has failed, or took nothing. The count never falls.
    ghost faults: { Self → ℕ };

    /// Takes some of the bytes, from their front. It takes none of them, and answers `Failed`, only where the count
    /// of faults rose.
    fn write(&mut self, bytes: &[u8]) -> Result<usize, Failed>
        requires { 0 < length bytes.now }
        ensures bound { IfOk result (λ n. n ≤ length bytes.now) }
        ensures bytes { WriteAppends (taken self.old) (taken self.new) result bytes.now }
        ensures none { result ≡ Ok 0 → Rose (faults self.old) (faults self.new) }
        ensures cause { FailsWithCause (faults self.old) (faults self.new) result };
}
