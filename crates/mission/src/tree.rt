// The nodes of an outline judged as a tree: a node reads its run of children, a run reads nodes.
ghost use Rattle.std.specs.Prelude.{◌≡◌, ◌+◌, ◌*◌, ◌<◌, ◌≤◌, length, Decides, MatchResult};
ghost use Rattle.mission.specs.Lawful.{Lawful, Sound, Unplaced, Again, Beyond, Overneeds};
ghost use Rattle.mission.specs.Places.{places};
ghost use Rattle.mission.specs.Judging.{Judged, Next, Refused, Unbroken};
ghost use Rattle.mission.specs.Seen.{row};
ghost use Rattle.mission.specs.Shapes.{shape};

use crate::breach::Breach;
use crate::node::{Node, Target};
use crate::outline::Outline;
use crate::reading::NODES_BEGIN;
use crate::skills::Skills;
use crate::tree_fault::TreeFault;

// The deepest level that a node may have.
const LEVELS: u8 = 16;

// The nodes before `at` are read: none of them breaks the law, and their skills are noted. So many
// places are open after them.
// Kept: `at` is a number, and no cursor over the nodes. The law speaks of a node by its number, and its
// line is told from it.
#[derive(Drop)]
struct Reader<'a> {
    outline: &'a Outline,
    at: u16,
    still_open: usize,
    skills: Skills,
    ghost within: { at ≤ outline.now.declared.nodes },
    ghost sound: { Sound (shape outline.now) at },
    ghost noted: { skills ≡ row (shape outline.now).nodes at },
    ghost opened: { still_open ≡ length (places (shape outline.now).nodes at) },
    ghost few: { still_open ≤ 1 + 255 * at },
}

// Is a key of the node not below its declared number?
fn key_beyond(outline: &Outline, node: Node) -> bool
    ensures { Decides result (Beyond (shape outline.now) node) }
{
    match node {
        Node::Count { key, .. }
        | Node::Skill {
            target: Target::Count { key },
            ..
        } => key >= outline.declared.counts,
        Node::Ability { key, .. }
        | Node::Skill {
            target: Target::Ability { key, .. },
            ..
        } => key >= outline.declared.abilities,
        _ => false,
    }
}

fn needs_too_many(node: Node) -> bool
    ensures { Decides result (Overneeds node) }
{
    matches!(node, Node::Par { kids, need } if need > kids)
}

// The next node of a reader, which stands at an open place of this level. For an open place a node is
// left: a last node that leaves places open breaks the law.
#[derive(Drop)]
struct NextNode<'r, 'a> {
    reader: &'r Reader<'a>,
    level: u8,
    ghost left: { reader.now.at < reader.now.outline.now.declared.nodes },
    ghost place: { Next (shape reader.now.outline.now).nodes reader.now.at 1 level },
}

impl<'r, 'a> NextNode<'r, 'a> {
    ghost use Rattle.mission.specs.Readers.{outlined, next_node};

    fn node(&self) -> Node
        ensures { result ≡ next_node self.now.reader.now }
    {
        self.reader.outline.node(self.reader.at)
    }

    // Is it the last, and places stay open after it?
    fn leaves_open(&self) -> bool
        ensures { let r = self.now.reader.now in Decides result (Unplaced (outlined r).nodes r.at) }
    {
        let last = self.reader.at + 1 == self.reader.outline.declared.nodes;
        last && (self.reader.still_open > 1 || self.node().kids() > 0)
    }

    // Was its skill named before?
    fn names_again(&self) -> bool
        ensures { let r = self.now.reader.now in Decides result (Again (outlined r).nodes r.at) }
    {
        self.reader.skills.has(self.node().skill())
    }

    // Judges it: of its breaches the one with the lowest number is told, so the tests stand in that order.
    fn check(&self) -> Result<(), Breach>
        ensures { let r = self.now.reader.now in Judged (outlined r) r.at result }
    {
        if self.leaves_open() {
            return Err(Breach::Place);
        }
        if self.level > LEVELS {
            return Err(Breach::Level);
        }
        if self.names_again() {
            return Err(Breach::Twice);
        }
        if key_beyond(self.reader.outline, self.node()) {
            return Err(Breach::Key);
        }
        if needs_too_many(self.node()) {
            return Err(Breach::Need);
        }
        Ok(())
    }

    // The node, if it breaks no law, or else its breach with its line.
    fn judged(&self) -> Result<Node, TreeFault>
        ensures { let r = self.now.reader.now in MatchResult result (λ node. (node ≡ next_node r) × Unbroken (outlined r) r.at) (λ e. Refused (outlined r) e) }
    {
        let line = self.reader.line();
        self.check().map_err(|breach| breach.at(line))?;
        Ok(self.node())
    }
}

impl<'a> Reader<'a> {
    ghost use Rattle.mission.specs.Readers.{Opens, Reads};

    // Nothing is read yet, and one place is open.
    fn of(outline: &'a Outline) -> Reader<'a>
        ensures outline { result.outline.now ≡ outline.now }
        ensures at { result.at ≡ 0 }
    {
        Reader {
            outline,
            at: 0,
            still_open: 1,
            skills: Skills::none(),
        }
    }

    // The line of the next node.
    fn line(&self) -> u32
        ensures { result ≡ self.now.at + 5 }
    {
        u32::from(self.at) + NODES_BEGIN
    }

    // Reads the next node, which stands at an open place of this level, and all below it: it fills its
    // place and opens one for each child.
    #[cycle(reader)]
    fn read_node(&mut self, level: u8) -> Result<(), TreeFault>
        requires next { Opens self.old 1 level }
        requires level { level ≤ 17 }
        ensures { Reads self.old 1 self.new result }
    {
        let node = NextNode {
            reader: self,
            level,
        }
        .judged()?;
        let kids = node.kids();
        self.still_open = self.still_open - 1 + usize::from(kids);
        self.skills.note(node.skill());
        self.at += 1;
        self.read_run(kids, level + 1)
    }

    // Reads so many nodes, one after the other.
    #[cycle(reader)]
    fn read_run(&mut self, kids: u8, level: u8) -> Result<(), TreeFault>
        requires next { Opens self.old kids level }
        requires level { level ≤ 17 }
        ensures { Reads self.old kids self.new result }
    {
        for _ in 0..kids {
            self.read_node(level)?;
        }
        Ok(())
    }
}

// The nodes make a lawful tree, or this is the first breach.
pub(crate) fn judge(outline: &Outline) -> Result<(), TreeFault>
    ensures { MatchResult result (λ _. Lawful (shape outline.now)) (λ e. Refused (shape outline.now) e) }
{
    let mut reader = Reader::of(outline);
    reader.read_node(1)?;
    if reader.at < outline.declared.nodes {
        return Err(Breach::Place.at(reader.line()));
    }
    Ok(())
}
