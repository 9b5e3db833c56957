ghost use Rattle.pl_model.specs.declared.whole.Model.{Model};
ghost use Rattle.pl_laws.specs.Fixed.{SoloFollowsInputs, SoloIsFixed, SoloIsOne};

/// A legal log of one thread that takes the least repair is fixed by its options and its inputs: by their front up to some place in
/// it, and where its last round is closed as a whole. So an input has one finished log at most.
pub fn laws_of_solo_logs()
    ensures follows { (m : Model) → SoloFollowsInputs m }
    ensures fixed { (m : Model) → SoloIsFixed m }
    ensures one { (m : Model) → SoloIsOne m }
{}
