// What became of a client.
ghost use Rattle.std.specs.Prelude.{◌≡◌, ◌++◌, codes, OnOk, OnErr};
ghost use Rattle.mrdt_model.specs.Spelled.{AppendsPart};
ghost use Rattle.branch_print.specs.Texts.{line_end};
ghost use Rattle.branch_print.specs.Clients.{client_text, client_done_text};

use crate::pieces::put_pieces;
use itoa::Buffer;
use mrdt_model::Memory;

/// The client of a number, behind which a reply tells why it was refused: `client 0 `.
pub fn put_client(out: &mut Vec<u8>, client: u64) -> Result<(), Memory>
    ensures ok { OnOk result (out.new.items ≡ out.old.items ++ (client_text client ++ codes " ")) }
    ensures err { OnErr result
        (AppendsPart out.old.items out.new.items (client_text client ++ codes " ")) }
{
    let mut digits = Buffer::new();
    put_pieces(out, &[b"client ", digits.format(client).as_bytes(), b" "])
}

/// A client did all its steps, and so many moves landed: `client 0 done 2`.
pub fn put_client_done(out: &mut Vec<u8>, client: u64, moves: u64) -> Result<(), Memory>
    ensures ok { OnOk result (out.new.items
        ≡ out.old.items ++ (client_done_text client moves ++ line_end)) }
    ensures err { OnErr result
        (AppendsPart out.old.items out.new.items (client_done_text client moves ++ line_end)) }
{
    let mut client_digits = Buffer::new();
    let mut move_digits = Buffer::new();
    put_pieces(
        out,
        &[
            b"client ",
            client_digits.format(client).as_bytes(),
            b" done ",
            move_digits.format(moves).as_bytes(),
            b"\n",
        ],
    )
}
