// A mission's lines, written by a pen.
ghost use Rattle.std.specs.Prelude.{◌≡◌, ◌∷◌, pos, codes};
ghost use Rattle.std.specs.Option.{option_map};
ghost use Rattle.text.specs.Fields.{field};
ghost use Rattle.mission.specs.Lines.{or_none};
ghost use Rattle.mission.specs.Pages.{wrote, Laid};
ghost use Rattle.mission.specs.Pieces.{target_fields};
ghost use Rattle.mission.specs.Shapes.{shape};
ghost use Rattle.mission.specs.Texts.{ended, heading, node_line, text as text_of};

use crate::node::{Node, Target};
use crate::outline::{Declared, Outline};
use crate::pen::Pen;

impl Pen<'_> {
    // The four lines before the nodes.
    fn head(&mut self, declared: Declared)
        ensures { self.new ≡ wrote self.old (ended (heading declared)) }
    {
        self.number("mission=1\ncounts=", declared.counts);
        self.number("\nabilities=", declared.abilities);
        self.number("\nnodes=", declared.nodes);
        self.put("\n");
    }

    fn device(&mut self, device: Option<u8>)
        ensures { self.new ≡ wrote self.old (32 ∷ field (codes "device") (or_none (option_map pos device))) }
    {
        match device {
            Some(device) => self.number(" device=", device),
            None => self.put(" device=none"),
        }
    }

    // Where a skill's mark goes.
    fn destination(&mut self, target: Target)
        ensures { self.new ≡ wrote self.old (32 ∷ target_fields target) }
    {
        match target {
            Target::Nowhere => self.put(" into=none key=none weight=none"),
            Target::Count { key } => {
                self.number(" into=count key=", key);
                self.put(" weight=none");
            }
            Target::Ability { key, weight } => {
                self.number(" into=ability key=", key);
                self.number(" weight=", weight.value());
            }
        }
    }

    // A node's line, without its end.
    fn line(&mut self, node: Node)
        ensures { self.new ≡ wrote self.old (node_line node) }
    {
        match node {
            Node::Group { kind, kids } => {
                self.put("node=");
                self.put(kind.word());
                self.number(" kids=", kids);
            }
            Node::Par { kids, need } => {
                self.number("node=par kids=", kids);
                self.number(" need=", need);
            }
            Node::Not => self.put("node=not"),
            Node::Loop { kind, times } => {
                self.put("node=");
                self.put(kind.word());
                self.number(" times=", times);
            }
            Node::Skill {
                skill,
                device,
                target,
            } => {
                self.number("node=skill skill=", skill);
                self.device(device);
                self.destination(target);
            }
            Node::Count { key, least } => {
                self.number("node=count key=", key);
                self.number(" least=", least.least());
            }
            Node::Ability { key, least } => {
                self.number("node=ability key=", key);
                self.number(" least=", least.least());
                self.number(" over=", least.over());
            }
        }
    }
}

// Writes the text of the outline over the page from its beginning, as far as the page goes; its length.
pub(crate) fn lay(outline: &Outline, page: &mut [u8]) -> usize
    ensures { Laid (text_of (shape outline.now)) page.old page.new result }
{
    let mut pen = Pen::over(page);
    pen.head(outline.declared);
    for node in outline.nodes() {
        pen.line(*node);
        pen.put("\n");
    }
    pen.place
}
