//! Writes the counts of `mtxkit fill` in JSON.

ghost use Rattle.std.specs.Prelude.{◌≡◌, ◌++◌, IfOk, OnOk, codes, string_bytes};
ghost use Rattle.std.specs.Fmt.{decimal};
ghost use Rattle.mtxkit_facts.specs.Json.{first_member};
ghost use Rattle.mtxkit_patterns.specs.FillJson.{cost_members, fill_json, fill_members};
ghost use Rattle.mtxkit_patterns.specs.FillJson.{place_members};

use crate::counts::FillCounts;
use crate::fill_lines::{fill_of, ratio_text};
use mtxkit_facts::{push_end, push_first, push_member, push_number};
use std::alloc::{AllocError, Global};

/// Returns the object of these counts.
///
/// Fails only if an allocation fails.
pub(crate) fn json_of(alloc: Global, counts: FillCounts) -> Result<String, AllocError>
    ensures { IfOk result (λ json. string_bytes json ≡ fill_json counts) }
{
    let mut json = String::new(alloc);
    push_places(alloc, &mut json, counts)?;
    push_fill(alloc, &mut json, counts)?;
    push_costs(alloc, &mut json, counts)?;
    Ok(json)
}

// Appends the members of the places.
fn push_places(alloc: Global, json: &mut String, counts: FillCounts) -> Result<(), AllocError>
    ensures { OnOk result
        (string_bytes json.new ≡ string_bytes json.old ++ place_members counts) }
{
    push_own_places(alloc, json, counts.places)?;
    push_number(
        alloc,
        json,
        "places_of_the_lower_triangle",
        counts.lower as u128,
    )?;
    push_number(alloc, json, "places_of_the_factor", counts.factor as u128)?;
    Ok(())
}

// Appends the beginning of the object, and the member of the places of the matrix.
fn push_own_places(alloc: Global, json: &mut String, places: usize) -> Result<(), AllocError>
    ensures { OnOk result (string_bytes json.new
        ≡ string_bytes json.old ++ first_member (codes "places") (decimal places)) }
{
    let number = format!(in alloc; "{places}")?;
    push_first(json, "places", number.as_str())
}

// Appends the members of the fill.
fn push_fill(alloc: Global, json: &mut String, counts: FillCounts) -> Result<(), AllocError>
    ensures { OnOk result
        (string_bytes json.new ≡ string_bytes json.old ++ fill_members counts) }
{
    push_number(alloc, json, "fill", fill_of(counts) as u128)?;
    let ratio = ratio_text(alloc, counts.factor, counts.lower)?;
    push_member(json, "factor_to_lower_triangle", ratio.as_str())
}

// Appends the members of the multiplications, the longest column and the elimination tree, and the end of the object.
fn push_costs(alloc: Global, json: &mut String, counts: FillCounts) -> Result<(), AllocError>
    ensures { OnOk result
        (string_bytes json.new ≡ string_bytes json.old ++ cost_members counts) }
{
    push_number(alloc, json, "multiplications", counts.products)?;
    push_number(alloc, json, "longest_column", counts.longest as u128)?;
    push_number(
        alloc,
        json,
        "height_of_the_elimination_tree",
        counts.height as u128,
    )?;
    push_end(json)
}
