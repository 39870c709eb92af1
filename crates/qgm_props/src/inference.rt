// What is inferred of a graph, made when it is first asked for.
ghost use Rattle.std.specs.Prelude.{◌≡◌, IfOk, None, Some};
ghost use Rattle.qgm_props.specs.Laws.{KeptOf, Tells};
ghost use Rattle.qgm_props.specs.Table.{facts_of};

use crate::answers::Props;
use crate::infer::props;
use qgm_core::Graph;
use shared_types::OutOfMemory;
use std::alloc::Global;
use std::marker::Model;

/// What is inferred of one graph, kept for whoever asks next. Contracts see what is kept, if anything.
#[derive(Drop)]
pub struct Inference {
    facts: Option<Props>,
}

impl Model for Inference {
    ghost use Rattle.qgm_props.specs.Laws.{Kept};

    ghost Value = { Kept };

    ghost view = { λ i. record { facts = i.facts } };
}

impl Inference {
    /// Nothing is inferred yet.
    pub fn new() -> Inference
        ensures { result ≡ record { facts = None } }
    {
        Inference { facts: None }
    }

    /// Takes out what is inferred, or infers it. It fails only for want of memory.
    pub fn take(&mut self, alloc: Global, graph: &Graph) -> Result<Props, OutOfMemory>
        requires { KeptOf self.old graph.now.boxes }
        ensures told { IfOk result (λ p. Tells (facts_of p) graph.now.boxes) }
        ensures none { self.new.facts ≡ None }
    {
        match self.facts.take() {
            Some(known) => Ok(known),
            None => props(alloc, graph),
        }
    }

    /// Keeps what is inferred.
    pub fn put(&mut self, known: Props)
        ensures facts { self.new.facts ≡ Some known }
    {
        self.facts = Some(known);
    }
}
