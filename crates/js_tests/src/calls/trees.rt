//! Calls on a result tree.
use super::number;
use super::writing::{make_room, mark_begin, mark_end, push_answer, push_value, say};
use js_doc::Memory;
use js_tree::{
    Format, Move, Rule, Tree, Unit, apply, condense, form, is_merged, is_normal, merge_condense,
    prune, put_tree, replay, tree_doc, units,
};
use std::alloc::Global;

/// What the call answers on the tree. `more` is a format or moves, for the calls that take them.
pub fn answer_on_tree(rt: &HostRuntime, call: &str, more: &str, tree: Tree, answers: &mut String) {
    match call {
        "form" => formed(rt, format_named(more), tree, answers),
        "prune" | "condense" | "merge_condense" => changed(rt, call, tree, answers),
        "apply" => applied(rt, moves_of(rt.alloc(), more).as_slice(), tree, answers),
        "replay" => replayed(rt, moves_of(rt.alloc(), more).as_slice(), tree, answers),
        _ => looked_at(rt, call, &tree, answers),
    }
}

fn formed(rt: &HostRuntime, format: Format, tree: Tree, answers: &mut String) {
    mark_begin(rt);
    let made = form(rt.alloc(), tree, format);
    mark_end(rt);
    push_value(answers, made);
}

fn changed(rt: &HostRuntime, call: &str, tree: Tree, answers: &mut String) {
    mark_begin(rt);
    let made = match call {
        "prune" => prune(tree),
        "condense" => condense(tree),
        _ => merge_condense(tree),
    };
    mark_end(rt);
    show_tree(answers, &made);
}

fn looked_at(rt: &HostRuntime, call: &str, tree: &Tree, answers: &mut String) {
    match call {
        "units" => {
            mark_begin(rt);
            let found = units(rt.alloc(), tree);
            mark_end(rt);
            push_units(answers, found);
        }
        "tree_doc" => {
            mark_begin(rt);
            let made = tree_doc(rt.alloc(), tree);
            mark_end(rt);
            push_value(answers, made);
        }
        "is_normal" => {
            mark_begin(rt);
            let holds = is_normal(tree);
            mark_end(rt);
            push_answer(answers, holds);
        }
        "is_merged" => {
            mark_begin(rt);
            let holds = is_merged(tree);
            mark_end(rt);
            push_answer(answers, holds);
        }
        _ => {
            make_room(answers);
            mark_begin(rt);
            show_tree(answers, tree);
            mark_end(rt);
        }
    }
}

// (the first of the moves alone)
fn applied(rt: &HostRuntime, moves: &[Move], tree: Tree, answers: &mut String) {
    if let Some(first) = moves.first() {
        mark_begin(rt);
        let made = apply(tree, first);
        mark_end(rt);
        match made {
            Ok(left) => push_tree(answers, "done", &left),
            Err((_refused, left)) => push_tree(answers, "0", &left),
        }
    }
}

fn replayed(rt: &HostRuntime, moves: &[Move], tree: Tree, answers: &mut String) {
    mark_begin(rt);
    let made = replay(tree, moves);
    mark_end(rt);
    match made {
        Ok(left) => push_tree(answers, "done", &left),
        Err((number, left)) => {
            push_answer(answers, number);
            push_tree(answers, "", &left);
        }
    }
}

// The number of the first move that isn't possible, or `done`, and the tree that is left.
fn push_tree(answers: &mut String, made: &str, left: &Tree) {
    say(answers, made);
    say(answers, " ");
    show_tree(answers, left);
}

fn show_tree(answers: &mut String, tree: &Tree) {
    let _ = put_tree(tree, answers);
}

pub fn format_named(name: &str) -> Format {
    Format::named(name).unwrap_or(Format::Verbose)
}

/// The units' keyword locations, a line each, or the fault's name.
pub fn push_units(answers: &mut String, found: Result<Vec<&Unit>, Memory>) {
    match found {
        Ok(units) => {
            for unit in units.iter() {
                say(answers, unit.keyword.as_str());
                say(answers, "\n");
            }
        }
        Err(fault) => push_answer(answers, fault),
    }
}

// The moves in a text, separated by spaces: positions, and `drop`, `lift` or `merge` for the rule of the positions
// after it.
fn moves_of(alloc: Global, text: &str) -> Vec<Move> {
    let mut moves = Vec::new(alloc);
    let mut rule = Rule::Drop;
    for word in text.split(' ') {
        match word {
            "drop" => rule = Rule::Drop,
            "lift" => rule = Rule::Lift,
            "merge" => rule = Rule::Merge,
            _ => {
                let position = number(word);
                let _ = moves.push(Move { rule, position });
            }
        }
    }
    moves
}
