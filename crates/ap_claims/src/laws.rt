// What claims come to.
ghost use Rattle.ap_claims.specs.Places.{ClaimsAreExact};
ghost use Rattle.ap_claims.specs.Lists.{AreWriters};
ghost use Rattle.ap_claims.specs.Files.{ClaimsAgree, ClaimsFill, FilesAreMade, FilesAreOne, FilesDontClash};

/// A claim is `Ok` exactly where each byte of the range is free or the one asked for; then the range holds the bytes and has
/// the owner, and all else stays. Else the clash is the first byte that is held with another value.
pub fn claims_are_exact()
    ensures { ClaimsAreExact }
{}

/// Claims made one after the other, up to the first clash, make the list of all of them, or leave it at that clash.
pub fn writers_join()
    ensures { AreWriters }
{}

/// A block on which claims are made, and none of them clashes, has each claim's bytes at its place, 0 where no claim is,
/// and at each place the owners of the claims that have it.
pub fn claims_fill_a_block()
    ensures { ClaimsFill }
{}

/// Claims have one file of a size at most, the one that they make place by place. Where they have one, any two of them agree on
/// the places that they share; and where that has the block's size, none of them clashes on a free block.
pub fn claims_have_one_file()
    ensures one { FilesAreOne }
    ensures made { FilesAreMade }
    ensures agree { ClaimsAgree }
    ensures free { FilesDontClash }
{}
