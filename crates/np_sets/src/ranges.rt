//! Lists of ranges, as sets keep them.

use np_base::Range;
use smallvec::SmallVec;

/// A list of ranges. Up to two lie in the list itself and take no memory, as most sets have no more.
pub type Ranges<P> = SmallVec<Range<P>, 2>;
