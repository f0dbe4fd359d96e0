//! Ids noted as bits in a row of bytes: eight ids to a byte, the lowest first.
ghost use Rattle.std.specs.Prelude.{◌≡◌, ◌≢◌, ◌==◌, ℕ, ◌/◌, ◌<◌, length};
ghost use Rattle.page_layout.specs.Ids.{bit_of};

/// Notes an id: sets its bit. The bytes reach to the one that has it.
#[tactic(auto)]
pub fn note_id(bits: &mut [u8], id: u16)
    requires { id / 8 < length bits.old }
    ensures noted { bit_of bits.new id ≡ 1 }
    ensures others { (k : ℕ) → k ≢ id → bit_of bits.new k ≡ bit_of bits.old k }
{
    bits[usize::from(id / 8)] |= 1 << (id % 8);
}

/// Whether an id is noted. The bytes reach to the one that has its bit.
#[tactic(auto)]
pub fn is_noted(bits: &[u8], id: u16) -> bool
    requires { id / 8 < length bits.now }
    ensures { result ≡ (bit_of bits.now id == 1) }
{
    (bits[usize::from(id / 8)] >> (id % 8)) & 1 == 1
}
