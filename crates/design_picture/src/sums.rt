ghost use Rattle.std.specs.Prelude.{◌≡◌, ◌+◌, ◌*◌, IfOk};

use dep_model::OutOfMemory;

// A sum. No memory holds a picture that is too large for its lengths.
pub fn sum(length: u32, more: u32) -> Result<u32, OutOfMemory>
    ensures sum { IfOk result (λ sum. sum ≡ length + more) }
{
    match length.checked_add(more) {
        Some(sum) => Ok(sum),
        None => Err(OutOfMemory),
    }
}

// A product. No memory holds a picture that is too large for its lengths.
pub fn product(times: u32, length: u32) -> Result<u32, OutOfMemory>
    ensures product { IfOk result (λ product. product ≡ times * length) }
{
    match times.checked_mul(length) {
        Some(product) => Ok(product),
        None => Err(OutOfMemory),
    }
}
