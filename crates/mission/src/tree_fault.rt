ghost use Rattle.std.specs.Prelude.{◌≡◌, Some};
ghost use Rattle.mission.specs.Faults.{tree_number, tree_layer, tree_line};
ghost use Rattle.mission.specs.Words.{words};
ghost use Rattle.mission.specs.declared.tree_fault.TreeFault.TheVariants.{Line as ALine, Node as ANode};

use crate::breach::Breach;
use crate::line_fault::LineFault;
use fault::layer::Layer;
use fault::refusal::Refusal;
use std::error::Error;
use std::fmt;

// The fault of a mission text: the text layer's, handed up whole, or a node that breaks the law of the
// tree, with the line that it stands on.
#[derive(Clone, Copy, PartialEq, Eq, Debug)]
pub enum TreeFault {
    Line(LineFault),
    Node { breach: Breach, line: u32 },
}

impl Breach {
    // This breach, at the line of its node.
    pub(crate) fn at(self, line: u32) -> TreeFault
        ensures { result ≡ ANode self line }
    {
        TreeFault::Node { breach: self, line }
    }
}

impl From<LineFault> for TreeFault {
    ghost from_gives = { λ e r. r ≡ ALine e };

    fn from(fault: LineFault) -> TreeFault {
        TreeFault::Line(fault)
    }
}

impl Refusal for TreeFault {
    ghost numbered = { tree_number };

    ghost layered = { tree_layer };

    ghost lined = { tree_line };

    fn number(&self) -> u8 {
        match self {
            TreeFault::Line(fault) => fault.number(),
            TreeFault::Node { breach, .. } => breach.number(),
        }
    }

    fn layer(&self) -> Layer {
        match self {
            TreeFault::Line(fault) => fault.layer(),
            TreeFault::Node { .. } => Layer::Tree,
        }
    }

    fn line(&self) -> u32 {
        match self {
            TreeFault::Line(fault) => fault.line(),
            TreeFault::Node { line, .. } => *line,
        }
    }
}

// A fault is printed as words that help a writer mend the line, without its line.
impl fmt::Display for TreeFault {
    ghost output = { λ f. Some (words f) };

    fn fmt<W: fmt::Write>(&self, f: &mut fmt::Formatter<W>) -> fmt::Result {
        match self {
            TreeFault::Line(fault) => write!(f, "{}", fault.flaw),
            TreeFault::Node { breach, .. } => write!(f, "{breach}"),
        }
    }
}

impl Error for TreeFault {}
