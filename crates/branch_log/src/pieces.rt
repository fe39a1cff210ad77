// Pieces of the texts.
ghost use Rattle.std.specs.Prelude.{◌≡◌, ◌++◌, OnOk};
ghost use Rattle.branch_print.specs.Texts.{time_text};

use branch_print::pieces::put_pieces;
use itoa::Buffer;
use mrdt_model::{Memory, Time};

// A time: `2.1`.
pub(crate) fn put_time(out: &mut Vec<u8>, time: Time) -> Result<(), Memory>
    ensures { OnOk result (out.new.items ≡ out.old.items ++ time_text time) }
{
    let mut clock = Buffer::new();
    let mut origin = Buffer::new();
    put_pieces(
        out,
        &[
            clock.format(time.clock).as_bytes(),
            b".",
            origin.format(time.origin).as_bytes(),
        ],
    )
}
