// A mission text read line by line.
ghost use Rattle.std.specs.Prelude.{◌≡◌, ◌+◌, ◌<◌, true, [], length, pos, MatchResult};
ghost use Rattle.mission.specs.Lines.{line as line_of, raw, ranged, Covers};
ghost use Rattle.mission.specs.Texts.{head_line, text as text_of};
ghost use Rattle.mission.specs.Reading.{plain, LineRead, NumberRead, HeadRead, NodesRead, Taken, Stopped, Caught};
ghost use Rattle.mission.specs.Shapes.{shape};

use crate::flaw::Flaw;
use crate::line::judge_line;
use crate::line_fault::LineFault;
use crate::lines::Lines;
use crate::node::Node;
use crate::outline::{Declared, Outline};
use crate::ranges::in_range;
use text::field::Fields;

// The line of the first node.
pub(crate) const NODES_BEGIN: u32 = 5;

// The fixed first line.
fn read_head(lines: &mut Lines) -> Result<(), LineFault>
    ensures { LineRead head_line (λ u. true) (λ u. tt) lines.old result lines.new }
{
    let line = lines.take()?;
    match line.text {
        b"mission=1" => Ok(()),
        _ => Err(Flaw::Form.at(line.number)),
    }
}

// The number that the next line declares under this name, from `low` to `high`; the type has each of
// that range.
fn read_number<T: TryFrom<i32>>(
    lines: &mut Lines,
    name: &[u8],
    low: u16,
    high: u16,
) -> Result<T, LineFault>
where
    T::Error: Drop,
    requires name { plain name.now ≡ true }
    requires fits { Covers T.try_from_gives (pos low) (pos high) }
    ensures { NumberRead T.try_from_gives name.now (pos low) (pos high) lines.old result lines.new }
{
    let line = lines.take()?;
    let number = Fields::of(line)
        .one_number(name)
        .ok_or(Flaw::Form.at(line.number))?;
    in_range(number, i32::from(low), i32::from(high)).map_err(|flaw| flaw.at(line.number))
}

// The node of the next line.
fn read_node(lines: &mut Lines) -> Result<Node, LineFault>
    ensures { LineRead line_of ranged raw lines.old result lines.new }
{
    let line = lines.take()?;
    judge_line(line).map_err(|flaw| flaw.at(line.number))
}

// A node for each place, from a line each.
fn read_nodes(lines: &mut Lines, nodes: &mut [Node]) -> Result<(), LineFault>
    requires { lines.old.line + length nodes.old < 300 }
    ensures { NodesRead lines.old nodes.new result lines.new }
{
    for node in nodes.iter_mut() {
        *node = read_node(lines)?;
    }
    Ok(())
}

// The declared numbers, from the four lines before the nodes.
fn read_declared(lines: &mut Lines) -> Result<Declared, LineFault>
    requires { lines.old.line ≡ 0 }
    ensures { HeadRead lines.old result lines.new }
{
    read_head(lines)?;
    let counts = read_number(lines, b"counts", 0, 32)?;
    let abilities = read_number(lines, b"abilities", 0, 32)?;
    let nodes = read_number(lines, b"nodes", 1, 256)?;
    Ok(Declared {
        counts,
        abilities,
        nodes,
    })
}

// As many nodes as are declared, and nothing after them.
fn read_tree(mut lines: Lines, declared: Declared) -> Result<Outline, LineFault>
    requires { lines.line ≡ 4 }
    ensures { MatchResult result (λ o. (o.declared ≡ declared) × Taken lines.entry.rest.now (shape o).nodes []) (λ f. Stopped lines.entry.rest.now declared.nodes f) }
{
    let mut nodes = [Node::Not; 256];
    read_nodes(&mut lines, &mut nodes[..usize::from(declared.nodes)])?;
    lines.end()?;
    Ok(Outline { declared, nodes })
}

// The outline that the text writes, or its first flaw.
pub(crate) fn read_outline(text: &[u8]) -> Result<Outline, LineFault>
    ensures { MatchResult result (λ o. text.now ≡ text_of (shape o)) (λ f. Caught text.now f) }
{
    let mut lines = Lines::of(text);
    let declared = read_declared(&mut lines)?;
    read_tree(lines, declared)
}
