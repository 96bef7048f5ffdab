//! Laws of the faults that are told.
ghost use Rattle.wave_faults.specs.FaultsLaws.{OnlyFaultsAreTold, EachFaultIsTold, FirstIsAnswered, NoneIsAnswered, NoFaultIsAValue, AValueHasNoFault};

/// Each error that is told is a fault; where the names of the type are distinct, each fault is told.
pub fn faults_are_told()
    ensures only { OnlyFaultsAreTold }
    ensures each { EachFaultIsTold }
{}

/// The error that is told first is the fault that is answered as the tokens are read; where none is told,
/// none is answered.
pub fn first_is_answered()
    ensures first { FirstIsAnswered }
    ensures none { NoneIsAnswered }
{}

/// Where the names of the type are distinct, none is told exactly where the type gives the tree a value.
pub fn no_fault_is_a_value()
    ensures value { NoFaultIsAValue }
    ensures none { AValueHasNoFault }
{}
