// The traits, with what they mean.
ghost use Rattle.std.specs.Prelude.{◌≡◌, ◌+◌, ◌≤◌, List, ℕ, [], ◌∷◌, ◌++◌, length, take, IfOk, IfErr, OnOk, OnErr, Option};
ghost use Rattle.t_ports.specs.Causes.{HasCause};
ghost use Rattle.t_ports.specs.Files.{Files, IfTold, IfBothTold, IsSame, Puts, FetchCause, KeepCause, FetchFails};

use std::alloc::Global;

/// Why no bytes were fetched.
#[derive(Clone, Copy, Debug, PartialEq, Eq)]
pub enum FetchFault {
    /// They could not be read, as where there are none under the name.
    Failed,
    /// There are more of them than the cap, and so many were read.
    Long { read: usize },
    /// The want of memory; no clause says when it comes.
    Memory,
}

/// Why bytes were not kept.
#[derive(Clone, Copy, Debug, PartialEq, Eq)]
pub enum KeepFault {
    /// They could not be written.
    Failed,
    /// The want of memory; no clause says when it comes.
    Memory,
}

/// Named bytes.
pub trait Folder {
    /// The bytes under each name, where they are told.
    ghost files: { Self → Option Files };

    /// How many fetches failed, up to the last number of the count.
    ghost fetch_faults: { Self → ℕ };

    /// How many keeps failed, counted alike.
    ghost keep_faults: { Self → ℕ };

    /// The folder before became the folder after by fetches of exactly these names, in this order, and by keeps.
    ghost fetched: { Self → List (List ℕ) → Self → Type 0 };

    /// The bytes under the name, at most `cap` of them.
    fn fetch(&mut self, alloc: Global, name: &str, cap: usize) -> Result<Vec<u8>, FetchFault>
        ensures same { IfBothTold (files self.old) (files self.new) IsSame }
        ensures bytes { IfOk result (λ v. IfTold (files self.old) (λ f. f name.now ≡ Some v.items)) }
        ensures short { IfOk result (λ v. length v.items ≤ cap) }
        ensures long { IfErr result (FetchFails (files self.old) name.now cap) }
        ensures later { fetch_faults self.old ≤ fetch_faults self.new }
        ensures cause { IfErr result (FetchCause (fetch_faults self.old) (fetch_faults self.new)) }
        ensures counts_stand { OnOk result (fetch_faults self.new ≡ fetch_faults self.old) }
        ensures keeps { keep_faults self.new ≡ keep_faults self.old }
        ensures asks { fetched self.old (name.now ∷ []) self.new };

    /// Puts the bytes under the name, in the place of those that are there. Where this fails, what is told of the content stays.
    fn keep(&mut self, alloc: Global, name: &str, bytes: &[u8]) -> Result<(), KeepFault>
        ensures ok { OnOk result (IfBothTold (files self.old) (files self.new) (Puts name.now bytes.now)) }
        ensures err { OnErr result (IfBothTold (files self.old) (files self.new) IsSame) }
        ensures later { keep_faults self.old ≤ keep_faults self.new }
        ensures cause { IfErr result (KeepCause (keep_faults self.old) (keep_faults self.new)) }
        ensures counts_stand { OnOk result (keep_faults self.new ≡ keep_faults self.old) }
        ensures fetches { fetch_faults self.new ≡ fetch_faults self.old }
        ensures asks_nothing { fetched self.old [] self.new };

    /// No call fetches nothing.
    ghost fetched_nothing: { (folder : Self) → fetched folder [] folder };

    /// Fetches behind each other are those of both.
    ghost fetched_both: { (a b c : Self) (first second : List (List ℕ)) → fetched a first b → fetched b second c → fetched a (first ++ second) c };
}

/// A put failed.
#[derive(Clone, Copy, Debug, PartialEq, Eq)]
pub struct Failed {
    /// So many bytes were taken, the first ones.
    pub taken: usize,
}

/// Where bytes go.
pub trait Sink {
    /// The sink before became the sink after by taking exactly these bytes.
    ghost took: { Self → List ℕ → Self → Type 0 };

    /// How many puts failed, up to the last number of the count.
    ghost faults: { Self → ℕ };

    /// How many pieces were put, as far as the sink counts them.
    ghost pieces: { Self → ℕ };

    /// Takes the whole piece, or as many of its first bytes as the error says.
    fn put(&mut self, bytes: &[u8]) -> Result<(), Failed>
        ensures ok { OnOk result (took self.old bytes.now self.new) }
        ensures err { IfErr result (λ e. (e.taken ≤ length bytes.now) × took self.old (take e.taken bytes.now) self.new) }
        ensures piece { pieces self.new ≤ pieces self.old + 1 }
        ensures cause { HasCause (faults self.old) (faults self.new) result };

    /// A sink took nothing to become itself.
    ghost took_nothing: { (sink : Self) → took sink [] sink };

    /// Two takings after each other are one of both.
    ghost took_both: { (a b c : Self) (first second : List ℕ) → took a first b → took b second c → took a (first ++ second) c };
}

/// Takes every piece, and tells nothing.
#[derive(Clone, Copy, Debug)]
pub struct NullSink;

impl Sink for NullSink {
    ghost took = { λ _ _ _. Unit {0} };

    ghost faults = { λ _. 0 };

    ghost pieces = { λ _. 0 };

    ghost took_nothing = { λ _. tt };

    ghost took_both = { λ _ _ _ _ _ _ _. tt };

    fn put(&mut self, _bytes: &[u8]) -> Result<(), Failed> {
        Ok(())
    }
}
