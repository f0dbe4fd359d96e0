ghost use Rattle.room_laws.specs.Places.{HadFindsIndex, HadFindsData, HadPutsIndex, HadPutsData, HadKills, HadLess};

/// Pages that have places find one after the other, and what is put or killed leaves places for those that remain.
pub fn pages_find_places()
    ensures index { HadFindsIndex }
    ensures pages { HadFindsData }
    ensures put_index { HadPutsIndex }
    ensures put_data { HadPutsData }
    ensures kill { HadKills }
    ensures less { HadLess }
{}
