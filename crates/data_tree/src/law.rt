//! What follows of the definition of a data tree.
ghost use Rattle.data_tree.specs.Grown.{StaysRead};
ghost use Rattle.data_tree.specs.Named.{BidsNameData};

/// A file that grows keeps what it lays: a data tree that is read has the same data where more blocks are found and the file is longer.
pub fn stays_read()
    ensures { StaysRead }
{}

/// The ids that `read_bids` gives may be kept: under each stand the bytes that `read_data` gives at its position.
pub fn bids_name_data()
    ensures { BidsNameData }
{}
