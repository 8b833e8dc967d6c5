//! What a decoded copy lays.
ghost use Rattle.std.specs.Prelude.{ℕ, List};
ghost use Rattle.pst_outside.specs.World.{Image};
ghost use Rattle.file_layout.specs.Nodes.{AreNodes, Node, nodes_in};
ghost use Rattle.file_layout.specs.Opening.{opening};
ghost use Rattle.file_layout.specs.Trees.{file_of};
ghost use Rattle.file_decode.specs.Decoded.{IsDecoded};
ghost use Rattle.file_decode.specs.Decoding.{method_in};
ghost use Rattle.file_decode.specs.Laid.{LaysNodes, decoded_in};

/// A decoded copy lays the nodes to which the entries of the file's node tree lead among its blocks, each block of data decoded: just these, where they lead to some.
pub fn lays_decoded()
    ensures { (image : Image) (count : ℕ) (copy : List ℕ) (is : IsDecoded image count copy) (nodes : List Node)
        → AreNodes (decoded_in (method_in (opening image.main image.side)) (file_of image) is.blocks) is.header.eof (nodes_in ((is.laid).lays).nodes) nodes
        → LaysNodes is.header nodes copy }
{}
