//! What follows of the definition of subnodes.
ghost use Rattle.subnode_tree.specs.Grown.{SubsStayRead};
ghost use Rattle.subnode_tree.specs.Named.{SubBidsNameData};

/// A file that grows keeps what it lays: subnodes that are read are the same where more blocks are found and the file is longer.
pub fn subs_stay_read()
    ensures { SubsStayRead }
{}

/// The ids that `read_sub_bids` gives may be kept: under each stand the bytes that `read_subs` gives at its position.
pub fn sub_bids_name_data()
    ensures { SubBidsNameData }
{}
