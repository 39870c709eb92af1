// Whether a graph has what a script names.
ghost use Rattle.std.specs.Prelude.{◌≡◌, true, OnOk};
ghost use Rattle.qgm_core.specs.Boxes.{HasBox, HasQuant};

use crate::faults::LineError;
use qgm_core::{BoxId, Graph, QuantId, has_box, has_quant};

/// It fails where the graph holds no such box.
pub fn need_box(graph: &Graph, b: BoxId) -> Result<(), LineError>
    ensures { OnOk result (HasBox b graph.now) }
{
    if has_box(graph.nodes(), b) {
        Ok(())
    } else {
        Err(LineError::Faulty("the graph has no such box"))
    }
}

/// It fails where no box of the graph owns such a quantifier.
pub fn need_quant(graph: &Graph, q: QuantId) -> Result<(), LineError>
    ensures { OnOk result (HasQuant q graph.now) }
{
    if has_quant(graph.nodes(), q) {
        Ok(())
    } else {
        Err(LineError::Faulty("the graph has no such quantifier"))
    }
}

/// It fails where what is asked for isn't so.
pub fn need(holds: bool, why: &'static str) -> Result<(), LineError>
    ensures { OnOk result (holds ≡ true) }
{
    if holds {
        Ok(())
    } else {
        Err(LineError::Faulty(why))
    }
}
