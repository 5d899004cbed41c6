//! Calls on a result's flat list.
ghost use Rattle.std.specs.Prelude.{IfSome};
ghost use Rattle.js_tree.specs.FlatState.{IsWholeTree, flat_state};

use super::trees::{format_named, push_units};
use super::writing::{make_room, mark_begin, mark_end, push_value};
use js_tree::{Flat, Format, flat_condense, flat_doc, flat_prune, flat_units, put_flat};

/// What the call answers on the rows; if it takes a format, on what that format shows of them. There is no answer if
/// they aren't a whole tree's.
pub fn answer_on_flat_list(
    rt: &HostRuntime,
    call: &str,
    format: &str,
    flat: Flat,
    answers: &mut String,
) {
    if let Some(flat) = whole(flat) {
        match call {
            "flat_units" => noted(rt, &flat, answers),
            "flat_prune" | "flat_condense" => changed(rt, call, flat, answers),
            "flat_doc" | "put_flat" => formatted(rt, call, format_named(format), flat, answers),
            _ => show_rows(answers, &flat, Format::Verbose),
        }
    }
}

// The rows, if they are a whole tree's.
fn whole<'a>(rows: Flat<'a>) -> Option<Flat<'a>>
    ensures { IfSome result (λ found. IsWholeTree (flat_state found)) }
{
    if rows.whole() { Some(rows) } else { None }
}

fn noted(rt: &HostRuntime, flat: &Flat, answers: &mut String)
    requires { IsWholeTree (flat_state flat.now) }
{
    mark_begin(rt);
    let found = flat_units(rt.alloc(), flat);
    mark_end(rt);
    push_units(answers, found);
}

fn changed(rt: &HostRuntime, call: &str, flat: Flat, answers: &mut String)
    requires { IsWholeTree (flat_state flat) }
{
    mark_begin(rt);
    let made = match call {
        "flat_prune" => flat_prune(flat),
        _ => flat_condense(flat),
    };
    let made = whole(made);
    mark_end(rt);
    if let Some(made) = made {
        show_rows(answers, &made, Format::Verbose);
    }
}

// The rows of what the format shows.
fn trimmed<'a>(rows: Flat<'a>, format: Format) -> Option<Flat<'a>>
    requires { IsWholeTree (flat_state rows) }
    ensures { IfSome result (λ found. IsWholeTree (flat_state found)) }
{
    match format {
        Format::Basic => whole(flat_prune(rows)),
        Format::Detailed => whole(flat_condense(whole(flat_prune(rows))?)),
        _ => Some(rows),
    }
}

fn formatted(rt: &HostRuntime, call: &str, format: Format, flat: Flat, answers: &mut String)
    requires { IsWholeTree (flat_state flat) }
{
    if let Some(flat) = trimmed(flat, format) {
        made_of(rt, call, format, &flat, answers);
    }
}

fn made_of(rt: &HostRuntime, call: &str, format: Format, flat: &Flat, answers: &mut String)
    requires { IsWholeTree (flat_state flat.now) }
{
    if call == "put_flat" {
        make_room(answers);
        mark_begin(rt);
        show_rows(answers, flat, format);
        mark_end(rt);
        return;
    }
    mark_begin(rt);
    let made = flat_doc(rt.alloc(), flat, format);
    mark_end(rt);
    push_value(answers, made);
}

fn show_rows(answers: &mut String, flat: &Flat, format: Format)
    requires { IsWholeTree (flat_state flat.now) }
{
    let _ = put_flat(flat, format, answers);
}
