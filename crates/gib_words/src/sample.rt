//! The program and the input of a call without words.

/// A program that adds one to each leaf of a tree.
pub const SAMPLE_SOURCE: &[u8] =
    b"data Tree = Leaf Int | Node Tree Tree ; fun add1 (t : Tree) : Tree = case t of { Leaf n -> Leaf (n + 1) ; Node l r -> Node (add1 l) (add1 r) } ; main (t : Tree) : Tree = add1 t ;";

/// The packed file of `(Node (Leaf 1) (Leaf 2))`.
pub const SAMPLE_INPUT: &[u8] = &[
    71, 73, 66, 80, 1, 0, 0, 0, 19, 0, 0, 0, 0, 0, 0, 0, 1, 0, 1, 0, 0, 0, 0, 0, 0, 0, 0, 2, 0, 0,
    0, 0, 0, 0, 0,
];
