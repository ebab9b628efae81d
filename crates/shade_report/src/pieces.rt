//! Putting a text in pieces.

ghost use Rattle.std.specs.Prelude.{flat_map};
ghost use Rattle.shelf_io.specs.Taking.{Puts};

use shelf_io::{Failed, Sink};

/// Puts the pieces one after the other. It allocates no memory.
pub(crate) fn put_all<O: Sink>(out: &mut O, pieces: &[&[u8]]) -> Result<(), Failed>
    ensures { Puts (flat_map (λ p. p.now) pieces.now) result (O.view out.old) (O.view out.new) }
{
    for piece in pieces {
        let Ok(()) = out.put(piece) else {
            return Err(Failed);
        };
    }
    Ok(())
}
