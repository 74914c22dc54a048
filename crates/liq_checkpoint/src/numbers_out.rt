//! Numbers put behind bytes, each with its high byte first.

ghost use Rattle.std.specs.Prelude.{◌∷◌, [], OnOk};
ghost use Rattle.liq_checkpoint.specs.Spelling.{Puts, eights};

use std::alloc::AllocError;

#[tactic(auto, unfolding(crate::specs::Spelling::bytes_of))]
pub fn put_u8(out: &mut Vec<u8>, n: u8) -> Result<(), AllocError>
    ensures { OnOk result (Puts out.old.items out.new.items ((1, n) ∷ [])) }
{
    out.extend_from_slice(&n.to_be_bytes())
}

#[tactic(auto, unfolding(crate::specs::Spelling::bytes_of))]
pub fn put_u32(out: &mut Vec<u8>, n: u32) -> Result<(), AllocError>
    ensures { OnOk result (Puts out.old.items out.new.items ((4, n) ∷ [])) }
{
    out.extend_from_slice(&n.to_be_bytes())
}

#[tactic(auto, unfolding(crate::specs::Spelling::bytes_of))]
pub fn put_u64(out: &mut Vec<u8>, n: u64) -> Result<(), AllocError>
    ensures { OnOk result (Puts out.old.items out.new.items ((8, n) ∷ [])) }
{
    out.extend_from_slice(&n.to_be_bytes())
}

#[tactic(auto, unfolding(crate::specs::Spelling::bytes_of))]
pub fn put_u128(out: &mut Vec<u8>, n: u128) -> Result<(), AllocError>
    ensures { OnOk result (Puts out.old.items out.new.items ((16, n) ∷ [])) }
{
    out.extend_from_slice(&n.to_be_bytes())
}

pub fn put_numbers(out: &mut Vec<u8>, numbers: &[u64]) -> Result<(), AllocError>
    ensures { OnOk result (Puts out.old.items out.new.items (eights numbers.now)) }
{
    for number in numbers {
        put_u64(out, *number)?;
    }
    Ok(())
}
