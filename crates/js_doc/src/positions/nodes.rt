//! What stands at a pointer among the tokens of a text.
ghost use Rattle.std.specs.Bool.{MatchBool};
ghost use Rattle.std.specs.Prelude.{◌≡◌, ◌≢◌, ◌+◌, ◌<◌, ℕ, List, Some, None, drop, length, map};
ghost use Rattle.json.specs.Find.{BeginsWith, InItems, InMembers};
ghost use Rattle.json.specs.Json.{Json, Items, Members, value};
ghost use Rattle.json.specs.Tape.{Linked, node_token};
ghost use Rattle.json.specs.Token.{Token as JsonToken};
ghost use Rattle.json.specs.Tree.{json_tokens};
ghost use Rattle.json.specs.declared.tape.Node.TheVariants.{EndArray};
ghost use Rattle.js_doc.specs.Positions.{item_placed, member_placed, part_placed, value_placed};
ghost use Rattle.js_doc.specs.code.Nodes.{IsPlaced};

use crate::lookup::index;
use crate::token::Token;
use json::Node;

/// The number of the token that begins the value at the pointer.
pub(crate) fn value_placed(nodes: &[Node<'_>], pointer: &[Token]) -> Option<usize>
    requires { Linked (map node_token nodes.now) 0 nodes.now }
    ensures { (j : Json) → BeginsWith (map node_token nodes.now) j
        → IsPlaced nodes.now result (value_placed pointer.now 0 j) }
{
    let mut at = 0;
    for token in pointer {
        match part(nodes, at, token.as_str()) {
            Some(part) => at = part,
            None => return None,
        }
    }
    Some(at)
}

// The item or member that the token names, in the value that begins at the node.
fn part(nodes: &[Node<'_>], at: usize, token: &str) -> Option<usize>
    requires { Linked (map node_token nodes.now) 0 nodes.now }
    ensures { (j : Json) → BeginsWith (drop at (map node_token nodes.now)) j
        → IsPlaced nodes.now result (part_placed token.now at j) }
{
    if at >= nodes.len() {
        return None;
    }
    match nodes[at] {
        Node::Array(_) => item(nodes, at + 1, token),
        Node::Object(_) => member(nodes, at + 1, token),
        _ => None,
    }
}

fn item(nodes: &[Node<'_>], first: usize, token: &str) -> Option<usize>
    requires { Linked (map node_token nodes.now) 0 nodes.now }
    ensures { (js : Items) → InItems (drop first (map node_token nodes.now)) js
        → IsPlaced nodes.now result (item_placed token.now 0 first js) }
{
    let Some(wanted) = index(token) else {
        return None;
    };
    let mut at = first;
    let mut left = wanted;
    loop {
        if at >= nodes.len() || is_end(&nodes[at]) {
            return None;
        }
        if left == 0 {
            return Some(at);
        }
        at = after(nodes, at);
        left -= 1;
    }
}

fn member(nodes: &[Node<'_>], first: usize, name: &str) -> Option<usize>
    requires { Linked (map node_token nodes.now) 0 nodes.now }
    ensures { (ms : Members) → InMembers (drop first (map node_token nodes.now)) ms
        → IsPlaced nodes.now result (member_placed name.now None first ms) }
{
    let mut at = first;
    let mut found = None;
    while at < nodes.len().saturating_sub(1) {
        let Node::Key(key) = nodes[at] else {
            return found;
        };
        if key == name {
            found = Some(at + 1);
        }
        at = after(nodes, at + 1);
    }
    found
}

// Whether an array ends here.
fn is_end(node: &Node<'_>) -> bool
    ensures { MatchBool result (node.now ≡ EndArray) (node.now ≢ EndArray) }
{
    matches!(node, Node::EndArray)
}

/// The number of the token behind the value that begins at the node.
pub(crate) fn after(nodes: &[Node<'_>], at: usize) -> usize
    requires { (at < length nodes.now) × Linked (map node_token nodes.now) 0 nodes.now }
    ensures value { (depth : ℕ) (j : Json) (rest : List JsonToken)
        → value depth (drop at (map node_token nodes.now)) ≡ Some (j, rest)
        → (rest ≡ drop result (map node_token nodes.now)) × (result ≡ at + length (json_tokens j)) }
    ensures later { at < result }
{
    match nodes[at] {
        Node::Object(end) | Node::Array(end) => end,
        _ => at + 1,
    }
}
