//! Laws of the definitions that contracts use. A call of a law does nothing.
ghost use Rattle.csvw_part_plan.specs.Order.{TilingGoesOn};
ghost use Rattle.csvw_part_plan.specs.Refusals.{NoPlan};

/// A law: a text that is refused is no plan. So `read_plan` refuses exactly the texts that are none, unless memory runs out.
pub fn refused_is_no_plan()
    ensures { NoPlan }
{}

/// A law: pieces that tile fronts of files, and one more that breaks no rule after them, tile fronts of files.
pub fn tiling_goes_on()
    ensures { TilingGoesOn }
{}
