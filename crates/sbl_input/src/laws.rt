//! The law of loading.
ghost use Rattle.sbl_input.specs.OneLoading.{LoadingIsOne, RestIsOne};

use sbl_script::laws::one_reading;

/// Loading an input has one result. With the same external, the same bytes always give one bench, or always one fault. If they
/// give a bench, the same bytes are left after its words. So `load` is a function of the bytes and the external, unless an
/// allocation fails or the reader stops.
pub fn loading_is_one()
    ensures loading { LoadingIsOne }
    ensures rest { RestIsOne }
{
    one_reading();
}
