//! Writers of numbers, texts and ids, each at the end of the bytes.

ghost use Rattle.std.specs.Prelude.{◌≡◌, ◌++◌, ◌<◌, ◌^◌, length, IfSome, OnOk, IsUtf8};
ghost use Rattle.std.specs.List.{All, flat_map};
ghost use Rattle.std.specs.Int.{w32, w64};
ghost use Rattle.api_records.specs.Spelling.{number_bytes, optional, list_bytes, text_bytes, id_bytes};
ghost use Rattle.entry_bytes.specs.Sound.{IsId};

use sysapi_base::{Id, Memory, Text};

#[tactic(auto, unfolding(api_records::specs::Spelling::number_bytes))]
pub(crate) fn put_u32(out: &mut Vec<u8>, n: u32) -> Result<(), Memory>
    ensures { OnOk result (out.new.items ≡ out.old.items ++ number_bytes w32 n) }
{
    out.extend_from_slice(&n.to_be_bytes())?;
    Ok(())
}

#[tactic(auto, unfolding(api_records::specs::Spelling::number_bytes))]
pub(crate) fn put_u64(out: &mut Vec<u8>, n: u64) -> Result<(), Memory>
    ensures { OnOk result (out.new.items ≡ out.old.items ++ number_bytes w64 n) }
{
    out.extend_from_slice(&n.to_be_bytes())?;
    Ok(())
}

#[tactic(auto, unfolding(api_records::specs::Spelling::number_bytes))]
pub(crate) fn put_id(out: &mut Vec<u8>, id: Id) -> Result<(), Memory>
    ensures bytes { OnOk result (out.new.items ≡ out.old.items ++ id_bytes id) }
    ensures proper { IsId id }
{
    let number = id.number();
    out.extend_from_slice(&number.to_be_bytes())?;
    Ok(())
}

pub(crate) fn put_optional_id(out: &mut Vec<u8>, id: &Option<Id>) -> Result<(), Memory>
    ensures bytes { OnOk result (out.new.items ≡ out.old.items ++ optional id_bytes id.now) }
    ensures proper { OnOk result (IfSome id.now IsId) }
{
    match id {
        Some(id) => {
            out.push(1)?;
            put_id(out, *id)
        }
        None => Ok(out.push(0)?),
    }
}

/// A length, and the bytes.
pub(crate) fn put_slice(out: &mut Vec<u8>, bytes: &[u8]) -> Result<(), Memory>
    requires { length bytes.now < 2 ^ 32 }
    ensures { OnOk result (out.new.items ≡ out.old.items ++ text_bytes bytes.now) }
{
    put_u32(out, bytes.len() as u32)?;
    out.extend_from_slice(bytes)?;
    Ok(())
}

#[tactic(auto, using(api_records::proofs::Lengths::length_32))]
pub(crate) fn put_optional_text(out: &mut Vec<u8>, text: &Option<Text>) -> Result<(), Memory>
    requires { length (optional text_bytes text.now) < 2 ^ 32 }
    ensures bytes { OnOk result (out.new.items ≡ out.old.items ++ optional text_bytes text.now) }
    ensures proper { OnOk result (IfSome text.now IsUtf8) }
{
    match text {
        Some(text) => {
            out.push(1)?;
            put_slice(out, text.as_str().as_bytes())
        }
        None => Ok(out.push(0)?),
    }
}

/// A list of ids.
#[tactic(auto, using(crate::proofs::Fields::ids_few))]
pub(crate) fn put_ids(out: &mut Vec<u8>, ids: &[Id]) -> Result<(), Memory>
    requires { length (list_bytes id_bytes ids.now) < 2 ^ 32 }
    ensures bytes { OnOk result (out.new.items ≡ out.old.items ++ list_bytes id_bytes ids.now) }
    ensures proper { OnOk result (All IsId ids.now) }
{
    put_u32(out, ids.len() as u32)?;
    for id in ids {
        put_id(out, *id)?;
    }
    Ok(())
}
