//! What an audit found, as a JSON object.

ghost use Rattle.std.specs.Prelude.{◌≡◌, IfOk, OnOk};
ghost use Rattle.register_tables.specs.declared.audit_object.Audited.TheVariants as found;
ghost use Rattle.register_tables.specs.AuditJson.{audit_json, audited_data, place_data};
ghost use Rattle.register_tables.specs.JsonValues.{value_tokens, Adds};

use crate::json_values::{Shown, line_of, put_members, put_object, set_rule};
use cwr_field::Memory;
use json::Writer;
use std::alloc::Allocator;

/// What an audit of a register found.
#[derive(Clone, Copy, Debug, PartialEq, Eq)]
pub enum Audited {
    /// The number of entries, all of one registry.
    Entries(u64),
    /// Its first fault.
    Fault {
        /// The number of the fault, 1 for G1.
        number: u8,
        /// The line, counted from 1.
        line: u64,
    },
}

/// What an audit found as a JSON object, and LF.
///
/// Its members are `entries`, the number of entries, or null; and `fault`, null or an object with `line`, counted from
/// 1, and `rule`, as `G3`.
pub fn audit_json<A: Allocator + Copy + Drop>(
    alloc: A,
    audited: Audited,
) -> Result<Vec<u8, A>, Memory>
    ensures { IfOk result (λ text. text.items ≡ audit_json audited) }
{
    let mut out = Writer::new(Vec::new(alloc));
    let mut buffer = String::new(alloc);
    match audited {
        Audited::Entries(entries) => put_object(
            &mut out,
            &mut buffer,
            &[("entries", Shown::Number(entries)), ("fault", Shown::Null)],
        )?,
        Audited::Fault { number, line } => put_faulty_audit(
            alloc,
            &mut out,
            &mut buffer,
            number,
            line,
        )?,
    }
    line_of(out)
}

/// Writes the object of an audit that found a fault to `out`: `entries` is null. `alloc` allocates, and `buffer` is a
/// scratch buffer for texts. `number` is the fault's number, 1 for G1, and `line` its line, from 1.
fn put_faulty_audit<A: Allocator + Copy + Drop>(
    alloc: A,
    out: &mut Writer<A>,
    buffer: &mut String<A>,
    number: u8,
    line: u64,
) -> Result<(), Memory>
    ensures { OnOk result (Adds out.old out.new (value_tokens (audited_data (found.Fault number line)))) }
{
    let mut rule = Vec::new(alloc);
    set_rule(&mut rule, b'G', number)?;
    out.begin_object()?;
    put_members(out, buffer, &[("entries", Shown::Null)])?;
    out.key("fault")?;
    put_fault_object(out, buffer, line, &rule)?;
    out.end_object()?;
    Ok(())
}

/// Writes the value of the member `fault` to `out`: an object with `line`, from 1, and `rule`, the name of the fault, as
/// `G3`. `buffer` is a scratch buffer for texts.
fn put_fault_object<A: Allocator + Copy + Drop>(
    out: &mut Writer<A>,
    buffer: &mut String<A>,
    line: u64,
    rule: &[u8],
) -> Result<(), Memory>
    ensures { OnOk result (Adds out.old out.new (value_tokens (place_data line rule.now))) }
{
    put_object(
        out,
        buffer,
        &[("line", Shown::Number(line)), ("rule", Shown::Text(rule))],
    )
}
