ghost use Rattle.std.specs.Prelude.{◌≡◌, ◌++◌, true, OnOk, map};
ghost use Rattle.std.specs.List.{flat_map, list_all};
ghost use Rattle.core_ir.specs.Plain.{bounds_of, all_bounds, some_bounds, call_of, artifact_of};
ghost use Rattle.artifact_codec.specs.Spelling.{signed, flag, optional, counted, bounds, matrices, call, write, summary};
ghost use Rattle.artifact_codec.specs.Demands.{is_short, is_state, are_matrices, is_call, is_summary};

use crate::writing::push_number;
use core_ir::{Artifact, Bounds, CallPart, WritePart};
use std::alloc::AllocError;

// As in `writing`, for summaries.

fn signed_bytes(z: i128) -> [u8; 16]
    ensures { result ≡ signed z }
{
    z.cast_unsigned().to_be_bytes()
}

fn push_signed(out: &mut Vec<u8>, z: i128) -> Result<(), AllocError>
    ensures { OnOk result (out.new.items ≡ out.old.items ++ signed z) }
{
    out.extend_from_slice(&signed_bytes(z))
}

fn push_flag(out: &mut Vec<u8>, b: bool) -> Result<(), AllocError>
    ensures { OnOk result (out.new.items ≡ out.old.items ++ flag b) }
{
    out.push(if b { 1 } else { 0 })?;
    Ok(())
}

fn push_entry(out: &mut Vec<u8>, entry: Option<i128>) -> Result<(), AllocError>
    ensures { OnOk result (out.new.items ≡ out.old.items ++ optional signed entry) }
{
    match entry {
        None => {
            out.push(0)?;
            Ok(())
        }
        Some(bound) => {
            out.push(1)?;
            push_signed(out, bound)
        }
    }
}

fn push_entries(out: &mut Vec<u8>, entries: &[Option<i128>]) -> Result<(), AllocError>
    ensures { OnOk result (out.new.items ≡ out.old.items ++ flat_map (optional signed) entries.now) }
{
    for entry in entries {
        push_entry(out, *entry)?;
    }
    Ok(())
}

fn push_bounds(out: &mut Vec<u8>, b: &Bounds) -> Result<(), AllocError>
    ensures { OnOk result (out.new.items ≡ out.old.items ++ bounds (bounds_of b.now)) }
{
    out.push(b.size)?;
    push_entries(out, &b.entries)
}

fn push_each_matrix(out: &mut Vec<u8>, list: &[Bounds]) -> Result<(), AllocError>
    ensures { OnOk result (out.new.items ≡ out.old.items ++ flat_map bounds (all_bounds list.now)) }
{
    for b in list {
        push_bounds(out, b)?;
    }
    Ok(())
}

fn push_matrices(out: &mut Vec<u8>, list: &[Bounds]) -> Result<(), AllocError>
    requires { is_short list.now ≡ true }
    ensures { OnOk result (out.new.items ≡ out.old.items ++ matrices (all_bounds list.now)) }
{
    push_number(out, list.len() as u32)?;
    push_each_matrix(out, list)
}

fn push_state(out: &mut Vec<u8>, state: &Option<Vec<Bounds>>) -> Result<(), AllocError>
    requires { is_state (some_bounds state.now) ≡ true }
    ensures { OnOk result (out.new.items ≡ out.old.items ++ optional matrices (some_bounds state.now)) }
{
    match state {
        None => {
            out.push(0)?;
            Ok(())
        }
        Some(list) => {
            out.push(1)?;
            push_matrices(out, list)
        }
    }
}

fn push_call(out: &mut Vec<u8>, c: &CallPart) -> Result<(), AllocError>
    requires { is_call (call_of c.now) ≡ true }
    ensures { OnOk result (out.new.items ≡ out.old.items ++ call (call_of c.now)) }
{
    push_number(out, c.callee)?;
    push_matrices(out, &c.entry)
}

fn push_each_call(out: &mut Vec<u8>, calls: &[CallPart]) -> Result<(), AllocError>
    requires { list_all is_call (map call_of calls.now) ≡ true }
    ensures { OnOk result (out.new.items ≡ out.old.items ++ flat_map call (map call_of calls.now)) }
{
    for c in calls {
        push_call(out, c)?;
    }
    Ok(())
}

fn push_calls(out: &mut Vec<u8>, calls: &[CallPart]) -> Result<(), AllocError>
    requires count { is_short calls.now ≡ true }
    requires each { list_all is_call (map call_of calls.now) ≡ true }
    ensures { OnOk result (out.new.items ≡ out.old.items ++ counted call (map call_of calls.now)) }
{
    push_number(out, calls.len() as u32)?;
    push_each_call(out, calls)
}

fn push_write(out: &mut Vec<u8>, w: &WritePart) -> Result<(), AllocError>
    ensures { OnOk result (out.new.items ≡ out.old.items ++ write w.now) }
{
    push_number(out, w.class)?;
    push_signed(out, w.low)?;
    push_signed(out, w.high)
}

fn push_each_write(out: &mut Vec<u8>, writes: &[WritePart]) -> Result<(), AllocError>
    ensures { OnOk result (out.new.items ≡ out.old.items ++ flat_map write writes.now) }
{
    for w in writes {
        push_write(out, w)?;
    }
    Ok(())
}

fn push_writes(out: &mut Vec<u8>, writes: &[WritePart]) -> Result<(), AllocError>
    requires { is_short writes.now ≡ true }
    ensures { OnOk result (out.new.items ≡ out.old.items ++ counted write writes.now) }
{
    push_number(out, writes.len() as u32)?;
    push_each_write(out, writes)
}

pub(crate) fn push_summary(out: &mut Vec<u8>, a: &Artifact) -> Result<(), AllocError>
    requires { is_summary (artifact_of a.now) ≡ true }
    ensures { OnOk result (out.new.items ≡ out.old.items ++ summary (artifact_of a.now)) }
{
    push_flag(out, a.changed)?;
    push_state(out, &a.context)?;
    push_state(out, &a.result)?;
    push_calls(out, &a.calls)?;
    push_writes(out, &a.writes)
}
