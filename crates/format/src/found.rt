// What reading finds lies inside the bytes, and each fault says what it is.

ghost use Rattle.format.specs.Found.{DeltasStayInside, PointsStayInside, ReadingLiesInTheSlot, FaultsHaveTheirNumbers};

// Each function below states a law of reading, so that the check asks for its proof.

pub fn deltas_stay_inside()
    ensures { DeltasStayInside }
{}

pub fn points_stay_inside()
    ensures { PointsStayInside }
{}

pub fn reading_lies_in_the_slot()
    ensures { ReadingLiesInTheSlot }
{}

pub fn faults_have_their_numbers()
    ensures { FaultsHaveTheirNumbers }
{}
