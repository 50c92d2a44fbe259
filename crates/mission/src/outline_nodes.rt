ghost use Rattle.std.specs.Prelude.{◌≡◌, ◌<◌};
ghost use Rattle.mission.specs.Places.{node_at};
ghost use Rattle.mission.specs.Shapes.{shape};

use crate::node::Node;
use crate::outline::Outline;

impl Outline {
    // The nodes in preorder.
    pub(crate) fn nodes(&self) -> &[Node]
        ensures { result.now ≡ (shape self.now).nodes }
    {
        &self.nodes[..usize::from(self.declared.nodes)]
    }

    // Node `at`, from 0.
    pub(crate) fn node(&self, at: u16) -> Node
        requires { at < self.now.declared.nodes }
        ensures { result ≡ node_at (shape self.now).nodes at }
    {
        self.nodes[usize::from(at)]
    }
}
