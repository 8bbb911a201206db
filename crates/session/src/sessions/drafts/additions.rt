ghost use Rattle.std.specs.Prelude.{◌≡◌, is_ok, if◌then◌else◌};
ghost use Rattle.session.specs.Contents.{contents, free, line_fits, no_contents, node_fits, rate_fits, ready, with_line, with_node, with_rate};
ghost use Rattle.session.specs.Drafts.{AnswersFit, LinesFull, NodesFull, draft, drafted};
ghost use Rattle.session.specs.Held.{nothing};
ghost use Rattle.session.specs.Sessions.{held};

use crate::nodes::{Line, Node};
use crate::sessions::Session;
use crate::sessions::drafts::{Draft, DraftFault};
use crate::settings::Setting;
use std::alloc::Global;

impl Draft {
    // A draft that holds nothing.
    #[tactic(auto, using(crate::proofs::Drafting::lawful_empty))]
    pub fn new(heap: Global) -> Draft
        ensures contents { draft result ≡ no_contents }
        ensures held { drafted result ≡ nothing }
    {
        Draft {
            rate: 0,
            nodes: Vec::new(heap),
            lines: Vec::new(heap),
            settings: [Setting::UNSET; 8],
        }
    }

    // Sets the rate; it is unfit where it is not from 8,000 to 192,000.
    #[tactic(auto, using(crate::proofs::Drafting::lawful_rate))]
    pub fn set_rate(&mut self, rate: u32) -> Result<(), DraftFault>
        ensures fits { result ≡ (if rate_fits rate then Ok tt else Err DraftFault.Unfit) }
        ensures after { draft self.new ≡ (if is_ok result then with_rate (draft self.old) rate else draft self.old) }
    {
        if rate < 8000 || 192000 < rate {
            return Err(DraftFault::Unfit);
        }
        self.rate = rate;
        Ok(())
    }

    // Whether a node's unit is set and no node has it.
    fn has_free(&self, unit: Option<u8>) -> bool
        ensures { result ≡ free (draft self.now) unit }
    {
        unit.is_none_or(|s| self.is_set(s) && !self.is_used(s))
    }

    // Adds a node after the others.
    #[tactic(auto, using(crate::proofs::Drafting::lawful_node))]
    pub fn add_node(&mut self, node: Node) -> Result<(), DraftFault>
        ensures fits { AnswersFit result (node_fits (draft self.old) node) }
        ensures after { draft self.new ≡ (if is_ok result then with_node (draft self.old) node else draft self.old) }
        ensures room { result ≡ Err DraftFault.NoMemory → NodesFull self.old }
    {
        if self.nodes.len() >= 16 || !self.has_free(node.unit) {
            return Err(DraftFault::Unfit);
        }
        self.nodes.push(node)?;
        Ok(())
    }

    // Adds a line after the others.
    #[tactic(auto, using(crate::proofs::Drafting::lawful_line))]
    pub fn add_line(&mut self, line: Line) -> Result<(), DraftFault>
        ensures fits { AnswersFit result (line_fits (draft self.old) line) }
        ensures after { draft self.new ≡ (if is_ok result then with_line (draft self.old) line else draft self.old) }
        ensures room { result ≡ Err DraftFault.NoMemory → LinesFull self.old }
    {
        if self.lines.len() >= 48
            || usize::from(line.start) >= self.nodes.len()
            || !self.is_bus(line.end)
        {
            return Err(DraftFault::Unfit);
        }
        self.lines.push(line)?;
        Ok(())
    }

    // The session of a draft with a rate and a node; of another draft, the empty session.
    #[tactic(auto, using(crate::proofs::Drafting::lawful_full))]
    pub fn finish(self, heap: Global) -> Session
        ensures { contents (held result) ≡ (if ready (draft self) then draft self else no_contents) }
    {
        if self.rate == 0 || self.nodes.len() == 0 {
            return Session::empty(heap);
        }
        Session { draft: self }
    }
}
