// The pieces are those of the table.
ghost use Rattle.tuples.specs.Laws.{PointsAreTheTables, DataIsTheTables, SizeIsTheTables, RegionIsTheTables, AxesComeInThirds, HeaderIsTheTables};

pub fn points_are_the_tables()
    ensures { PointsAreTheTables }
{}

pub fn data_is_the_tables()
    ensures { DataIsTheTables }
{}

pub fn size_is_the_tables()
    ensures { SizeIsTheTables }
{}

pub fn region_is_the_tables()
    ensures { RegionIsTheTables }
{}

pub fn axes_come_in_thirds()
    ensures { AxesComeInThirds }
{}

pub fn header_is_the_tables()
    ensures { HeaderIsTheTables }
{}
