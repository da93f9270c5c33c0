//! Writes objects in JSON, on one line, member by member.

ghost use Rattle.std.specs.Prelude.{◌≡◌, ◌++◌, IfOk, OnOk, string_bytes};
ghost use Rattle.mtxkit_facts.specs.Json.{first_member, flag_member, flag_text, member, number_member};
ghost use Rattle.mtxkit_facts.specs.Json.{object_end, quoted};

use std::alloc::{AllocError, Global};

/// Appends the beginning of an object and its first member. The name has no character that JSON escapes, and the value
/// is JSON.
///
/// Fails only if an allocation fails.
#[tactic(auto, unfolding(crate::specs::Json::first_member))]
pub fn push_first(json: &mut String, name: &str, value: &str) -> Result<(), AllocError>
    ensures { OnOk result
        (string_bytes json.new ≡ string_bytes json.old ++ first_member name.now value.now) }
{
    json.push_str("{\"")?;
    json.push_str(name)?;
    json.push_str("\":")?;
    json.push_str(value)
}

/// Appends a member of an object that has one. The name has no character that JSON escapes, and the value is JSON.
///
/// Fails only if an allocation fails.
#[tactic(auto, unfolding(crate::specs::Json::member))]
pub fn push_member(json: &mut String, name: &str, value: &str) -> Result<(), AllocError>
    ensures { OnOk result
        (string_bytes json.new ≡ string_bytes json.old ++ member name.now value.now) }
{
    json.push_str(",\"")?;
    json.push_str(name)?;
    json.push_str("\":")?;
    json.push_str(value)
}

/// Appends a member whose value is a number.
///
/// Fails only if an allocation fails.
pub fn push_number(
    alloc: Global,
    json: &mut String,
    name: &str,
    number: u128,
) -> Result<(), AllocError>
    ensures { OnOk result
        (string_bytes json.new ≡ string_bytes json.old ++ number_member name.now number) }
{
    let digits = format!(in alloc; "{number}")?;
    push_member(json, name, digits.as_str())
}

/// Appends a member whose value is `true` or `false`.
///
/// Fails only if an allocation fails.
pub fn push_flag(json: &mut String, name: &str, flag: bool) -> Result<(), AllocError>
    ensures { OnOk result
        (string_bytes json.new ≡ string_bytes json.old ++ flag_member name.now flag) }
{
    push_member(json, name, flag_text(flag))
}

fn flag_text(flag: bool) -> &'static str
    ensures { result.now ≡ flag_text flag }
{
    if flag { "true" } else { "false" }
}

/// Returns a text as JSON. It has no character that JSON escapes.
///
/// Fails only if an allocation fails.
#[tactic(auto, unfolding(crate::specs::Json::quoted))]
pub fn quoted(alloc: Global, text: &str) -> Result<String, AllocError>
    ensures { IfOk result (λ json. string_bytes json ≡ quoted text.now) }
{
    let mut json = String::new(alloc);
    json.push_str("\"")?;
    json.push_str(text)?;
    json.push_str("\"")?;
    Ok(json)
}

/// Appends the end of an object, and a line end.
///
/// Fails only if an allocation fails.
#[tactic(auto, unfolding(crate::specs::Json::object_end))]
pub fn push_end(json: &mut String) -> Result<(), AllocError>
    ensures { OnOk result (string_bytes json.new ≡ string_bytes json.old ++ object_end) }
{
    json.push_str("}\n")
}
