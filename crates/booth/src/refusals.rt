// How refusals are printed.
ghost use Rattle.std.specs.Prelude.{◌≡◌, ◌++◌, IfOk, string_bytes, codes, decimal};
ghost use Rattle.fault.specs.Layers.{word as layer_word};
ghost use Rattle.mission.specs.Words.{words as words_of};

use fault::refusal::Refusal;
use mission::tree_fault::TreeFault;
use std::alloc::{AllocError, Global};

// Words that help a writer mend the line.
// Kept beside the Display of a fault: these always come, and printing into a string may want memory.
pub fn words(fault: TreeFault) -> &'static str
    ensures { result.now ≡ words_of fault }
{
    match fault {
        TreeFault::Line(fault) => fault.flaw.words(),
        TreeFault::Node { breach, .. } => breach.words(),
    }
}

// The line that a refusal prints: it ends in words that help to mend it. The layer is told by its word,
// since a format of it may fail.
pub fn refused_line<F: Refusal>(heap: Global, fault: &F, words: &str) -> Result<String, AllocError>
    ensures { IfOk result (λ s. string_bytes s ≡ codes "refused " ++ (decimal (F.Refusal.numbered fault.now) ++ (codes " " ++ (layer_word (F.Refusal.layered fault.now) ++ (codes " line " ++ (decimal (F.Refusal.lined fault.now) ++ (codes ": " ++ words.now))))))) }
{
    let number = fault.number();
    let layer = fault.layer().word();
    let line = fault.line();
    format!(in heap; "refused {number} {layer} line {line}: {words}")
}
