// How many items a pair has as a list, in four bytes.
ghost use Rattle.std.specs.Prelude.{◌≡◌, ◌≢◌, ◌-◌, ◌^◌, Some};

use std::marker::Model;

/// The code that stands for no count. No list has so many items: a pair's count is at most its place, which is below 2^32 - 1.
const NO_COUNT: u32 = u32::MAX;

/// How many items a pair has as a list; a dotted list has no count. It takes four bytes, where an option of a number takes eight.
/// Contracts see an option of a number.
#[derive(Drop)]
pub struct ItemCount {
    code: u32,
}

impl Model for ItemCount {
    ghost use Rattle.std.specs.Prelude.{ℕ, ◌-◌, ◌^◌, ◌==◌, if◌then◌else◌, Option, Some, None};

    ghost Value = { Option ℕ };

    ghost view = { λ c. if c.code == 2 ^ 32 - 1 then None else Some c.code };
}

impl ItemCount {
    /// A count, which is below 2^32 - 1. It takes no memory.
    pub fn new(count: Option<u32>) -> ItemCount
        requires { count ≢ Some (2 ^ 32 - 1) }
        ensures { result ≡ count }
    {
        match count {
            None => ItemCount { code: NO_COUNT },
            Some(code) => ItemCount { code },
        }
    }

    /// The count. It takes no memory.
    pub fn get(&self) -> Option<u32>
        ensures { result ≡ self.now }
    {
        if self.code == NO_COUNT {
            None
        } else {
            Some(self.code)
        }
    }
}
