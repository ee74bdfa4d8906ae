//! Laws of the texts and of the blocks, in their own words.
ghost use Rattle.std.specs.Prelude.{◌≡◌, ℕ, ◌≤◌, ◌↔◌, List, length, true, All, Some};
ghost use Rattle.std.specs.Net.Text.{longest_zero_run};
ghost use Rattle.np_addr.specs.Prelude.{AddressRanges, IsAddress, IsAddressSet, IsAddressText, IsCidr, IsCidrText, IsRightPrefixList, IsStrictSubset, IsZeroRun, SharesFirstBits, address_of, address_text, base_of, cidr_has, cidr_of, cidr_text, is_strict_part, prefixes_of, set_has, some_block_has};
ghost use Rattle.np_addr.specs.declared.address.Address.{Address};
ghost use Rattle.np_addr.specs.declared.cidr.Cidr.{Cidr};

/// The canonical text of an address is read as that address.
pub fn canonical_text_reads_again()
    ensures { (address : Address) → IsAddress address → address_of (address_text address) ≡ Some address }
{}

/// No two addresses have the same canonical text.
pub fn canonical_texts_differ()
    ensures { (a b : Address) → IsAddress a → IsAddress b → address_text a ≡ address_text b → a ≡ b }
{}

/// The run for which `::` stands is a run of zero groups, no run is longer, and none as long begins before it.
pub fn longest_run_is_first()
    ensures zeros { (groups : List ℕ) → IsZeroRun groups (longest_zero_run groups).0 (longest_zero_run groups).1 }
    ensures longest { (groups : List ℕ) (start count : ℕ) → IsZeroRun groups start count →
        count ≤ (longest_zero_run groups).1 }
    ensures first { (groups : List ℕ) (start count : ℕ) → IsZeroRun groups start count →
        count ≡ (longest_zero_run groups).1 → (longest_zero_run groups).0 ≤ start }
{}

/// An address is in a block exactly where it is of its family and has its first bits.
pub fn block_is_first_bits()
    ensures { (cidr : Cidr) (address : Address) → IsCidr cidr →
        (cidr_has cidr address ≡ true) ↔ SharesFirstBits cidr address }
{}

/// A block is a strict part of another exactly where its addresses are, and are not all of them.
pub fn strict_part_is_strict_subset()
    ensures { (block except : Cidr) → IsCidr block → IsCidr except →
        (is_strict_part block except ≡ true) ↔ IsStrictSubset block except }
{}

/// What is read is put together as the text of an address or of a block is, and no such text is refused.
pub fn texts_are_read_exactly()
    ensures addresses { (text : List ℕ) (address : Address) →
        (address_of text ≡ Some address) ↔ IsAddressText text address }
    ensures blocks { (text : List ℕ) (block : Cidr) → (cidr_of text ≡ Some block) ↔ IsCidrText text block }
{}

/// The text of a block is read as that block.
pub fn printed_block_reads_again()
    ensures { (block : Cidr) → IsAddress (base_of block) → IsCidr block → cidr_of (cidr_text block) ≡ Some block }
{}

/// What `prefixes` gives is right for its set.
pub fn prefixes_are_right()
    ensures { (set : AddressRanges) → IsAddressSet set → IsRightPrefixList set (prefixes_of set) }
{}

/// No other list is right for the set.
pub fn one_prefix_list_is_right()
    ensures { (set : AddressRanges) (blocks others : List Cidr) → IsRightPrefixList set blocks → IsRightPrefixList set others →
        blocks ≡ others }
{}

/// No list of blocks with the same addresses is shorter than the right one.
pub fn no_prefix_list_is_shorter()
    ensures { (set : AddressRanges) (blocks others : List Cidr) → IsRightPrefixList set blocks → All IsCidr others →
        ((address : Address) → some_block_has others address ≡ set_has set address) → length blocks ≤ length others }
{}
