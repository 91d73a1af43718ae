// The image of a dictionary, and what loading one answers: definitions and theorems.
#![tactic(auto)]

ghost use Rattle.images.specs.Figures.{FiguresHold, TwoWithin};
ghost use Rattle.images.specs.Packings.{Packing};
ghost use Rattle.images.specs.RoundTrip.{FitLoadsBack, PairsFit, PairsLoadBack, ImagesDiffer};

use outputs::output::Output;

// Figures worked out by hand, computed by the definitions.
pub fn figures_hold()
    ensures { FiguresHold }
{}

// Some pairs are within the limits that the theorems below ask for.
pub fn limits_are_met()
    ensures { TwoWithin }
{}

// Packing bits into bytes and spreading bytes to bits undo each other, up to the filling of the last byte.
pub fn packing_stands()
    ensures { Packing }
{}

// Load takes every fit machine back from its image, whatever bytes follow.
pub fn load_takes_image<O: Output>()
    ensures { FitLoadsBack O.Output.kind }
{}

// The minimal machine of pairs within the limits is fit for an image.
pub fn minimal_is_fit<O: Output>()
    ensures { PairsFit O.Output.kind }
{}

// Load takes the minimal machine back from the image of pairs within the limits, whatever bytes follow.
pub fn load_takes_minimal<O: Output>()
    ensures { PairsLoadBack O.Output.kind }
{}

// Only equal pairs have equal images.
pub fn images_differ<O: Output>()
    ensures { ImagesDiffer O.Output.kind }
{}
