// What holds of all ids.
ghost use Rattle.object_ids.specs.IdLaws.{OneIdEachText, TextsInOrder};

/// Within a kind the texts of ids stand in the order of the ids, and no two ids have one text.
pub fn id_texts_in_order()
    ensures order { TextsInOrder }
    ensures once { OneIdEachText }
{}
