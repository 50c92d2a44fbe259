// One node line read and judged.
ghost use Rattle.std.specs.Prelude.{◌≡◌};
ghost use Rattle.text.specs.Seen.{left};
ghost use Rattle.mission.specs.Lines.{line as line_of, ranged, raw, LineJudged};
ghost use Rattle.mission.specs.Parsing.{kind as kind_of_word, target_of as aim_of, target as target_in, skill as skill_in, ability as ability_in, filled as filled_in, parsed};

use crate::flaw::Flaw;
use crate::node::{GroupKind, LoopKind, Node};
use crate::ranges::node_of;
use crate::raw::{NodeKind, RawNode, RawTarget};
use text::field::Fields;
use text::line::Line;

// The kind of node that a word names.
// Kept a function: all it can say of another word is None, and a TryFrom would need an error type.
fn node_kind(word: &[u8]) -> Option<NodeKind>
    ensures { result ≡ kind_of_word word.now }
{
    match word {
        b"seq" => Some(NodeKind::Group(GroupKind::Seq)),
        b"fall" => Some(NodeKind::Group(GroupKind::Fall)),
        b"mseq" => Some(NodeKind::Group(GroupKind::Mseq)),
        b"mfall" => Some(NodeKind::Group(GroupKind::Mfall)),
        b"par" => Some(NodeKind::Par),
        b"not" => Some(NodeKind::Not),
        b"retry" => Some(NodeKind::Loop(LoopKind::Retry)),
        b"repeat" => Some(NodeKind::Loop(LoopKind::Repeat)),
        b"skill" => Some(NodeKind::Skill),
        b"count" => Some(NodeKind::Count),
        b"ability" => Some(NodeKind::Ability),
        _ => None,
    }
}

// Where a mark goes, by the word, the key and the weight: each has its own.
fn target_of(key: Option<i32>, weight: Option<i32>, into: &[u8]) -> Option<RawTarget>
    ensures { result ≡ aim_of key weight into.now }
{
    match (into, key, weight) {
        (b"none", None, None) => Some(RawTarget::Nowhere),
        (b"count", Some(key), None) => Some(RawTarget::Count { key }),
        (b"ability", Some(key), Some(weight)) => Some(RawTarget::Ability { key, weight }),
        _ => None,
    }
}

fn target(mut fields: Fields) -> Option<RawTarget>
    ensures { result ≡ target_in (left fields.entry) }
{
    let into = fields.word(b"into")?;
    let key = fields.number_or(b"key", b"none")?;
    let weight = fields.number_or(b"weight", b"none")?;
    fields.end()?;
    target_of(key, weight, into)
}

fn skill(mut fields: Fields) -> Option<RawNode>
    ensures { result ≡ skill_in (left fields.entry) }
{
    Some(RawNode::Skill {
        skill: fields.number(b"skill")?,
        device: fields.number_or(b"device", b"none")?,
        target: target(fields)?,
    })
}

fn ability(mut fields: Fields) -> Option<RawNode>
    ensures { result ≡ ability_in (left fields.entry) }
{
    let key = fields.number(b"key")?;
    let (least, over) = fields.two_numbers(b"least", b"over")?;
    Some(RawNode::Ability { key, least, over })
}

// The fields after the first of a node line of this kind.
fn filled(fields: Fields, kind: NodeKind) -> Option<RawNode>
    ensures { result ≡ filled_in (left fields.entry) kind }
{
    match kind {
        NodeKind::Group(kind) => fields
            .one_number(b"kids")
            .map(|kids| RawNode::Group { kind, kids }),
        NodeKind::Par => fields
            .two_numbers(b"kids", b"need")
            .map(|(kids, need)| RawNode::Par { kids, need }),
        NodeKind::Not => fields.end().map(|()| RawNode::Not),
        NodeKind::Loop(kind) => fields
            .one_number(b"times")
            .map(|times| RawNode::Loop { kind, times }),
        NodeKind::Skill => skill(fields),
        NodeKind::Count => fields
            .two_numbers(b"key", b"least")
            .map(|(key, least)| RawNode::Count { key, least }),
        NodeKind::Ability => ability(fields),
    }
}

// The line with the numbers that it writes, where it is of its form.
fn parse(line: Line) -> Option<RawNode>
    ensures { result ≡ parsed line.entry.text.now }
{
    let mut fields = Fields::of(line);
    let kind = node_kind(fields.word(b"node")?)?;
    filled(fields, kind)
}

// The node of the line, or what is wrong with it.
pub(crate) fn judge_line(line: Line) -> Result<Node, Flaw>
    ensures { LineJudged line_of ranged raw line.entry.text.now result }
{
    node_of(parse(line).ok_or(Flaw::Form)?)
}
