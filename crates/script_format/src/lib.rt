// Records of 8 bytes, read and written, and decline 14.
// What asks for a whole record, or for room for one, is no call of the script: its callers count the records first.
#![tactic(auto)]

ghost use Rattle.std.specs.Prelude.{◌≡◌, ◌+◌, ◌*◌, ◌≤◌, length};
ghost use Rattle.std.proofs.lemmas.List.Edits.{sets};
ghost use Rattle.script_format.specs.Records.{record_of, bytes_of, is_record_of, is_script_of};

// What the bytes of a record say. `number` is the register of a store and the kind of a reset.
#[derive(Clone, Copy)]
pub struct Record {
    pub kind: u32,
    pub number: u32,
    pub form: u32,
    pub unused: u32,
    pub value: u32,
}

// The bytes of a record.
const RECORD_BYTES: usize = 8;

// Record i of a script.
#[tactic(auto, unfolding(crate::specs::Records::record_of, crate::specs::Records::value_of))]
pub fn record_at(script: &[u8], i: usize) -> Record
    requires { 8 * i + 8 ≤ length script.now }
    ensures { result ≡ record_of script.now i }
{
    let at = RECORD_BYTES * i;
    let value = [
        script[at + 4],
        script[at + 5],
        script[at + 6],
        script[at + 7],
    ];
    Record {
        kind: u32::from(script[at]),
        number: u32::from(script[at + 1]),
        form: u32::from(script[at + 2]),
        unused: u32::from(script[at + 3]),
        value: u32::from_le_bytes(value),
    }
}

// Writes the bytes of a record at a position: the lowest byte of each part, and the whole value.
pub fn put_record(out: &mut [u8], at: usize, r: Record)
    requires { at + 8 ≤ length out.old }
    ensures { out.new ≡ sets out.old at (bytes_of r) }
{
    let value = r.value.to_le_bytes();
    out[at] = (r.kind % 256) as u8;
    out[at + 1] = (r.number % 256) as u8;
    out[at + 2] = (r.form % 256) as u8;
    out[at + 3] = (r.unused % 256) as u8;
    out[at + 4..at + 8].copy_from_slice(&value);
}

// Whether a record has a known kind, register, form or reset kind, and its unused bytes at 0.
#[tactic(auto, unfolding(crate::specs::Records::is_record_of, crate::specs::Records::is_store_of, crate::specs::Records::is_step_of, crate::specs::Records::is_reset_of))]
fn is_record(r: Record) -> bool
    ensures { result ≡ is_record_of r }
{
    r.unused == 0
        && match r.kind {
            0 => r.number <= 10 && r.form <= 3,
            1 => r.number == 0 && r.form == 0 && r.value == 0,
            2 => r.number <= 2 && r.form == 0 && r.value == 0,
            _ => false,
        }
}

// Whether bytes are a script: whole records, each of them known.
#[tactic(auto, unfolding(crate::specs::Records::is_script_of))]
pub fn is_script(script: &[u8]) -> bool
    ensures { result ≡ is_script_of script.now }
{
    script.len() % RECORD_BYTES == 0
        && (0..script.len() / RECORD_BYTES).all(|i| is_record(record_at(script, i)))
}
