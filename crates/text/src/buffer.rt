// Output in a lent buffer of any length: as much of its front as fits.
ghost use Rattle.std.specs.Prelude.{◌≡◌};
ghost use Rattle.std.proofs.lemmas.List.Edits.{sets};

// Writes bytes at a position, as many of them as have room there.
pub fn put_front(out: &mut [u8], at: usize, bytes: &[u8])
    ensures { out.new ≡ sets out.old at bytes.now }
{
    let from = at.min(out.len());
    let room = out.len() - from;
    let count = bytes.len().min(room);
    out[from..from + count].copy_from_slice(&bytes[..count]);
}
