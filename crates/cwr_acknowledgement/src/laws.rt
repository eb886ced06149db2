//! Laws of the definitions alone.
//!
//! A law is a function that does nothing. Its contract is what is proved.

ghost use Rattle.std.specs.Prelude.{◌≡◌, List};
ghost use Rattle.std.specs.List.{AllByRecursion};
ghost use Rattle.cwr_record.specs.Stamp.{StampParts};
ghost use Rattle.cwr_record.specs.declared.control.Header.{Header};
ghost use Rattle.cwr_acknowledgement.specs.AckItem.{Item};
ghost use Rattle.cwr_acknowledgement.specs.Acknowledgement.{ack_text, IsWholeItem};

/// One acknowledgement text, one list of items.
pub fn one_text_one_list_of_items()
    ensures { (stamp : StampParts) (header : Header) (items others : List Item)
        → AllByRecursion IsWholeItem items → AllByRecursion IsWholeItem others
        → ack_text stamp header items ≡ ack_text stamp header others → items ≡ others }
{}
