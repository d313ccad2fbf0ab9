// Marks of numbers.
ghost use Rattle.std.specs.Prelude.{◌≡◌, ℕ, ◌<◌, ◌||◌, ◌==◌, length, OnOk};
ghost use Rattle.cps_walk.specs.Marked.{is_marked};

use t_base::Memory;

/// Whether a number is marked. Those behind the last mark aren't. It takes no memory.
pub fn is_marked(marks: &[bool], n: u32) -> bool
    ensures { result ≡ is_marked marks.now n }
{
    match marks.get(n as usize) {
        None => false,
        Some(marked) => *marked,
    }
}

/// Makes room for the mark of a number.
fn grow(marks: &mut Vec<bool>, n: u32) -> Result<(), Memory>
    ensures room { OnOk result (n < length marks.new.items) }
    ensures same { OnOk result ((m : ℕ) → is_marked marks.new.items m ≡ is_marked marks.old.items m) }
{
    while marks.len() <= n as usize {
        marks.push(false)?;
    }
    Ok(())
}

/// Marks a number. The only error is the want of memory.
pub fn mark(marks: &mut Vec<bool>, n: u32) -> Result<(), Memory>
    ensures { OnOk result ((m : ℕ) → is_marked marks.new.items m ≡ (is_marked marks.old.items m || n == m)) }
{
    grow(marks, n)?;
    marks[n as usize] = true;
    Ok(())
}
