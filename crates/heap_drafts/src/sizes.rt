//! Words of records.

ghost use Rattle.std.specs.Prelude.{◌≡◌, ◌+◌, IfOk};
ghost use Rattle.frame_ir.specs.Values.{even, record_words};

use t_base::Memory;

/// A number rounded up. The only error, the want of memory, comes where it is too large for any program.
pub(crate) fn even(n: u32) -> Result<u32, Memory>
    ensures { IfOk result (λ m. m ≡ even n) }
{
    if n > 0x0FFF_FFFF {
        return Err(Memory);
    }
    Ok(n + n % 2)
}

/// The words of a closure or of an object that captures so much.
pub(crate) fn record_words(captured: usize) -> Result<u32, Memory>
    ensures { IfOk result (λ n. n ≡ record_words captured) }
{
    let Ok(captured) = u32::try_from(captured) else {
        return Err(Memory);
    };
    let Some(count) = captured.checked_add(3) else {
        return Err(Memory);
    };
    let words = even(count)?;
    Ok(words)
}

/// The first slot behind a closure that follows on some slots.
pub(crate) fn with_record(slots: u32, captured: usize) -> Result<u32, Memory>
    ensures { IfOk result (λ n. n ≡ even slots + record_words captured) }
{
    let first = even(slots)?;
    let words = record_words(captured)?;
    let Some(end) = first.checked_add(words) else {
        return Err(Memory);
    };
    Ok(end)
}
