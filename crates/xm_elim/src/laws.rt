//! Laws of the elimination. A caller has each as the clause of a call.

ghost use Rattle.xm_elim.specs.Determined.{OneEnd, OneOverflow};
ghost use Rattle.xm_elim.specs.Elimination.{ExclusiveEnds};

use xm_rows::first_factor_is_positive;

/// An elimination that has a good end meets no overflow: it is determined.
pub fn ends_exclude()
    ensures { ExclusiveEnds }
{
    first_factor_is_positive();
}

/// What an elimination leaves is determined.
pub fn one_end()
    ensures { OneEnd }
{
    first_factor_is_positive();
}

/// The column of the first overflow is determined.
pub fn one_overflow()
    ensures { OneOverflow }
{
    first_factor_is_positive();
}
