// Laws about what the calls answer. Each function states one, so that the check asks for its proof.
ghost use Rattle.format.specs.Answers.{FirstThatApplies, NoneApplies, NumbersOfACall, GrantedMetNone, ShortOrLong};

pub fn first_that_applies()
    ensures { FirstThatApplies }
{}

pub fn none_applies()
    ensures { NoneApplies }
{}

pub fn numbers_of_a_call()
    ensures { NumbersOfACall }
{}

pub fn granted_met_none()
    ensures { GrantedMetNone }
{}

pub fn short_or_long()
    ensures { ShortOrLong }
{}
