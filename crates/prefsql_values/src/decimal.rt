ghost use Rattle.std.specs.Prelude.{◌≡◌, IfOk};
ghost use Rattle.std.specs.Fmt.{signed_decimal};

use crate::memory::Memory;
use crate::text::Text;
use itoa::Buffer;
use std::alloc::Global;

/// The decimal digits of the number without leading zeros, after a minus sign where it is negative;
/// or want of memory.
pub fn number_text(alloc: Global, n: i128) -> Result<Text, Memory>
    ensures { IfOk result (λ text. text ≡ signed_decimal n) }
{
    let mut buffer = Buffer::new();
    Text::of(alloc, buffer.format(n))
}
